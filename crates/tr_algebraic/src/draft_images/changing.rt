// A draft's task with the images of its formulas under a rule.
// It depends on the images of trees; transformations glue by it.
ghost use Rattle.std.specs.Prelude.{◌≡◌, [], ◌∷◌, All, IfOk};
ghost use Rattle.tasks.specs.Meaning.{body_at, declaration_at, declarations_at, task_at, tasks_at, DeclHeld};
ghost use Rattle.tasks.specs.Vocabulary.{of_task};
ghost use Rattle.tasks.specs.Valid.{IsValidDecl};
ghost use Rattle.images.specs.Images.{image};
ghost use Rattle.evidence.specs.Drafts.{AddsTrees};
ghost use Rattle.evidence.specs.Stages.{IsOwnTask};
ghost use Rattle.walking.specs.evidence.changed_tasks.Changed.{with_formula, changed_declarations, changed_task};
ghost use Rattle.walking.specs.rule_rewriting.Rules.{IsValidTaskIn, rule_at_task, task_stays, valid_stays};
ghost use Rattle.tr_algebraic.specs.draft_images.Images.{HasImages};

use evidence::Draft;
use evidence::task_parts::{one_task, with_parts};
use images::image_trees::{NodeRule, image_tree};
use std::alloc::{AllocError, Global};
use tasks::{Body, Decl, Grow, Seq, Task, TermId};
use walking::rule_rewriting::TaskRule;

// A rule at a task.
#[derive(Clone, Copy)]
struct RuleAt<'a, R> {
    rule: &'a R,
    task: &'a Task,
}

impl<'a, R: TaskRule> NodeRule for RuleAt<'a, R> {
    ghost rule_over = { λ x s. rule_at_task (R.rule x.rule.now) (task_at s x.task.now) };

    ghost Ready = { λ x s. IsValidTaskIn s x.task.now };

    fn at_node<G: Grow>(&self, alloc: Global, g: &mut G, e: TermId) -> Result<TermId, AllocError> {
        let made = self.rule.at_node(alloc, g, self.task, e)?;
        Ok(made)
    }

    ghost stays_ready = { λ x s t w r. valid_stays x.task.now s t w r };

    ghost stays = { λ x s t w r. task_stays (R.rule x.rule.now) x.task.now s t w r };

    ghost keeps = { λ x s r. R.typed_rule x.rule.now (task_at s x.task.now) r.valid };
}

// The declaration with another body.
fn with_body(decl: &Decl, body: Body) -> Result<Decl, AllocError>
    ensures { IfOk result (λ d. d ≡ record decl.now { body = body }) }
{
    Ok(Decl {
        theory: decl.theory.clone()?,
        name: decl.name.clone()?,
        vars: decl.vars,
        body,
    })
}

// What a declaration of the task becomes: a proposition the image of its formula, and any other stays.
fn image_decl<R: TaskRule>(
    draft: &mut Draft,
    rule: &R,
    task: &Task,
    decl: &Decl,
) -> Result<Decl, AllocError>
    requires can { IsValidTaskIn draft.old.trees task.now }
    requires decl_held { DeclHeld draft.old.trees decl.now }
    requires decl_valid { IsValidDecl (of_task (task_at draft.old.trees task.now))
        (declaration_at draft.old.trees decl.now) }
    ensures decl { IfOk result (λ d. declaration_at draft.new.trees d
        ≡ with_formula (image (R.rule rule.now (task_at draft.old.trees task.now)))
        (declaration_at draft.old.trees decl.now) (body_at draft.old.trees decl.now.body)) }
    ensures held { IfOk result (DeclHeld draft.new.trees) }
    ensures grows { AddsTrees draft.old draft.new }
{
    match decl.body {
        Body::Prop(formula) => {
            let alloc = draft.allocator();
            let at = RuleAt { rule, task };
            let made = image_tree(alloc, draft, &at, formula)?;
            with_body(decl, Body::Prop(made))
        }
        _ => decl.clone(),
    }
}

// What the declarations of the task become.
fn image_decls<R: TaskRule>(
    draft: &mut Draft,
    rule: &R,
    task: &Task,
) -> Result<Seq<Decl>, AllocError>
    requires can { IsValidTaskIn draft.old.trees task.now }
    ensures decls { IfOk result (λ v. declarations_at draft.new.trees v
        ≡ changed_declarations (image (R.rule rule.now (task_at draft.old.trees task.now)))
        (task_at draft.old.trees task.now).decls) }
    ensures held { IfOk result (All (DeclHeld draft.new.trees)) }
    ensures grows { AddsTrees draft.old draft.new }
{
    let mut decls = Seq::new(draft.allocator());
    for decl in task.decls.as_slice() {
        let made = image_decl(draft, rule, task, decl)?;
        decls.push(made)?;
    }
    Ok(decls)
}

/// The draft's task with the images of its formulas, alone, where those of its locals and its goal are another task's.
///
/// Only want of memory refuses.
pub fn changed_tasks<R: TaskRule>(
    draft: &mut Draft,
    rule: &R,
    from: &Task,
    to: &Task,
) -> Result<Vec<Task>, AllocError>
    requires own { IsOwnTask draft.old from.now }
    requires images { HasImages draft.old (image (R.rule rule.now draft.old.task)) to.now }
    ensures tasks { IfOk result (λ ts. tasks_at draft.new.trees ts.items
        ≡ changed_task (image (R.rule rule.now draft.old.task)) draft.old.task ∷ []) }
    ensures grows { AddsTrees draft.old draft.new }
{
    let decls = image_decls(draft, rule, from)?;
    let params = from.params.clone()?;
    let locals = to.locals.clone()?;
    let made = with_parts(from, decls, params, locals, to.goal)?;
    let tasks = one_task(draft.allocator(), made)?;
    Ok(tasks)
}
