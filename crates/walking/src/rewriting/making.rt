// The task whose formulas are rewritten.
// It depends on what a formula becomes; the transformations give it.
ghost use Rattle.std.specs.Prelude.{◌≡◌, ◌∷◌, [], map, All, Ok, IfOk, IfErr};
ghost use Rattle.tasks.specs.trees.Node.{tree_at, Holds, Grows};
ghost use Rattle.tasks.specs.Copying.{with_goal};
ghost use Rattle.tasks.specs.Meaning.{trees_at, body_at, declaration_at, declarations_at, task_at, tasks_at, DeclHeld, TaskHeld, TasksHeld};
ghost use Rattle.tasks.specs.Vocabulary.{of_task};
ghost use Rattle.tasks.specs.Valid.{IsValidDecl};
ghost use Rattle.evidence.specs.Stages.{IsStageFault, stage_equation};
ghost use Rattle.evidence.specs.changed_tasks.Changed.{with_formula, changed_declarations, changed_task};
ghost use Rattle.walking.specs.rewriting.Formulas.{CanRewrite};
ghost use Rattle.evidence.specs.changed_tasks.Limits.{IsLargeBody, AreLargeDeclarations, AreLarge, IsLargeTask};
ghost use Rattle.walking.specs.rewriting.Faults.{IsLimitFault};
ghost use Rattle.walking.specs.rewriting.Rewritten.{scoped_task, formulas_equation};

use crate::rewriting::{FormulaScope, RewriteFormulas};
use evidence::StageFault;
use evidence::task_parts::{one_task, with_parts};
use std::alloc::{AllocError, Global};
use tasks::{Body, Decl, Seq, Store, Task, TermId};

// The declaration with another body.
fn with_body(decl: &Decl, body: Body) -> Result<Decl, AllocError>
    ensures { IfOk result (λ d. d ≡ record decl.now { body = body }) }
{
    Ok(Decl {
        theory: decl.theory.clone()?,
        name: decl.name.clone()?,
        vars: decl.vars,
        body,
    })
}

// What a declaration of the task becomes: a proposition with its formula rewritten, and any other as it is.
fn rewritten_decl<F: RewriteFormulas>(
    alloc: Global,
    store: &mut Store,
    rewrite: &F,
    task: &Task,
    decl: &Decl,
) -> Result<Decl, StageFault>
    requires can { CanRewrite (F.Ready rewrite.now) store.old task.now }
    requires decl_held { DeclHeld store.old decl.now }
    requires decl_valid { IsValidDecl (of_task (task_at store.old task.now))
        (declaration_at store.old decl.now) }
    ensures decl { IfOk result (λ d. declaration_at store.new d
        ≡ with_formula (F.function rewrite.now (task_at store.old task.now))
        (declaration_at store.old decl.now) (body_at store.old decl.now.body)) }
    ensures held { IfOk result (DeclHeld store.new) }
    ensures fault { IfErr result (IsLimitFault (IsLargeBody
        (with_formula (F.function rewrite.now (task_at store.old task.now))
        (declaration_at store.old decl.now) (body_at store.old decl.now.body)).body)) }
    ensures grows { Grows store.old store.new }
{
    match decl.body {
        Body::Prop(formula) => {
            let made = rewrite.image_of(alloc, store, task, formula)?;
            Ok(with_body(decl, Body::Prop(made))?)
        }
        _ => Ok(decl.clone()?),
    }
}

// What the declarations of the task become.
fn rewritten_decls<F: RewriteFormulas>(
    alloc: Global,
    store: &mut Store,
    rewrite: &F,
    task: &Task,
) -> Result<Seq<Decl>, StageFault>
    requires can { CanRewrite (F.Ready rewrite.now) store.old task.now }
    ensures decls { IfOk result (λ v. declarations_at store.new v
        ≡ changed_declarations (F.function rewrite.now (task_at store.old task.now))
        (task_at store.old task.now).decls) }
    ensures held { IfOk result (All (DeclHeld store.new)) }
    ensures fault { IfErr result (IsLimitFault (AreLargeDeclarations
        (changed_declarations (F.function rewrite.now (task_at store.old task.now))
        (task_at store.old task.now).decls))) }
    ensures grows { Grows store.old store.new }
{
    let mut decls = Seq::new(alloc);
    for decl in task.decls.as_slice() {
        let made = rewritten_decl(alloc, store, rewrite, task, decl)?;
        decls.push(made)?;
    }
    Ok(decls)
}

// What the locals of the task become.
fn rewritten_locals<F: RewriteFormulas>(
    alloc: Global,
    store: &mut Store,
    rewrite: &F,
    task: &Task,
) -> Result<Seq<TermId>, StageFault>
    requires can { CanRewrite (F.Ready rewrite.now) store.old task.now }
    ensures trees { IfOk result (λ v. trees_at store.new v
        ≡ map (F.function rewrite.now (task_at store.old task.now))
        (task_at store.old task.now).locals) }
    ensures held { IfOk result (All (Holds store.new)) }
    ensures fault { IfErr result (IsLimitFault (AreLarge
        (map (F.function rewrite.now (task_at store.old task.now))
        (task_at store.old task.now).locals))) }
    ensures grows { Grows store.old store.new }
{
    let mut locals = Seq::new(alloc);
    for local in task.locals.as_slice() {
        let made = rewrite.image_of(alloc, store, task, *local)?;
        locals.push(made)?;
    }
    Ok(locals)
}

// The task with its propositions and its locals rewritten, and this goal.
fn with_goal_changed<F: RewriteFormulas>(
    alloc: Global,
    store: &mut Store,
    rewrite: &F,
    task: &Task,
    goal: TermId,
) -> Result<Task, StageFault>
    requires can { CanRewrite (F.Ready rewrite.now) store.old task.now }
    requires goal_held { Holds store.old goal }
    requires goal { tree_at store.old goal ≡ F.function rewrite.now
        (task_at store.old task.now) (task_at store.old task.now).goal }
    ensures task { IfOk result (λ t. task_at store.new t
        ≡ changed_task (F.function rewrite.now (task_at store.old task.now))
        (task_at store.old task.now)) }
    ensures held { IfOk result (TaskHeld store.new) }
    ensures fault { IfErr result (IsLimitFault (IsLargeTask
        (changed_task (F.function rewrite.now (task_at store.old task.now))
        (task_at store.old task.now)))) }
    ensures grows { Grows store.old store.new }
{
    let locals = rewritten_locals(alloc, store, rewrite, task)?;
    let params = task.params.clone()?;
    let decls = rewritten_decls(alloc, store, rewrite, task)?;
    let made = with_parts(task, decls, params, locals, goal)?;
    Ok(made)
}

// The task with what is rewritten.
fn scoped_task<F: RewriteFormulas>(
    alloc: Global,
    store: &mut Store,
    rewrite: &F,
    scope: FormulaScope,
    task: &Task,
) -> Result<Task, StageFault>
    requires can { CanRewrite (F.Ready rewrite.now) store.old task.now }
    ensures task { IfOk result (λ t. task_at store.new t
        ≡ scoped_task scope (F.function rewrite.now (task_at store.old task.now))
        (task_at store.old task.now)) }
    ensures held { IfOk result (TaskHeld store.new) }
    ensures fault { IfErr result (IsLimitFault (IsLargeTask (scoped_task scope
        (F.function rewrite.now (task_at store.old task.now)) (task_at store.old task.now)))) }
    ensures grows { Grows store.old store.new }
{
    let goal = rewrite.image_of(alloc, store, task, task.goal)?;
    match scope {
        FormulaScope::Everywhere => {
            let made = with_goal_changed(alloc, store, rewrite, task, goal)?;
            Ok(made)
        }
        FormulaScope::Goal => {
            let made = task.with_goal(alloc, goal)?;
            Ok(made)
        }
    }
}

/// The task with its propositions, locals and goal rewritten, or its goal alone, as the only one of a list.
///
/// `TooLarge` comes only where that task is larger or higher than a stage allows.
pub fn scoped_tasks<F: RewriteFormulas>(
    alloc: Global,
    store: &mut Store,
    rewrite: &F,
    scope: FormulaScope,
    task: &Task,
) -> Result<Vec<Task>, StageFault>
    requires can { CanRewrite (F.Ready rewrite.now) store.old task.now }
    ensures held { IfOk result (λ ts. TasksHeld store.new ts.items) }
    ensures tasks { IfOk result (λ ts. formulas_equation scope (F.function rewrite.now)
        (task_at store.old task.now) ≡ Ok (tasks_at store.new ts.items)) }
    ensures fault { IfErr result (IsStageFault (stage_equation
        (formulas_equation scope (F.function rewrite.now)) (task_at store.old task.now))) }
    ensures grows { Grows store.old store.new }
{
    let made = scoped_task(alloc, store, rewrite, scope, task)?;
    let tasks = one_task(alloc, made)?;
    Ok(tasks)
}
