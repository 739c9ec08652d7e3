// Tasks whose declarations are rewritten one by one.
// It depends on the rules; transformations depend on it.
ghost use Rattle.std.specs.Prelude.{◌≡◌, [], ◌∷◌, All, IfOk};
ghost use Rattle.trees.specs.Node.{Grows};
ghost use Rattle.tasks.specs.Meaning.{symbols_at, declarations_at, task_at, tasks_at, DeclHeld, TaskHeld, TasksHeld};
ghost use Rattle.tasks.specs.Valid.{IsValid};
ghost use Rattle.declarations.specs.Rewritten.{rewritten_decls, rewritten_task};

use crate::RewriteDeclarations;
use evidence::task_parts::{one_task, with_parts};
use std::alloc::{AllocError, Global};
use tasks::{Decl, Seq, Task};
use trees::store::Store;

// What is put in the place of each declaration, in order.
fn rewritten_decls<R: RewriteDeclarations>(
    alloc: Global,
    store: &mut Store,
    rule: &R,
    task: &Task,
) -> Result<Vec<Decl>, AllocError>
    requires held { TaskHeld store.old task.now }
    requires valid { IsValid (task_at store.old task.now) }
    ensures decls { IfOk result (λ v. declarations_at store.new v.items
        ≡ rewritten_decls (R.rule rule.now) (task_at store.old task.now)) }
    ensures held { IfOk result (λ v. All (DeclHeld store.new) v.items) }
    ensures grows { Grows store.old store.new }
{
    let mut decls = Vec::new(alloc);
    for decl in task.decls.as_slice() {
        rule.push_in_place(alloc, store, &task.sig, decl, &mut decls)?;
    }
    Ok(decls)
}

/// The task with its declarations rewritten by the rule.
///
/// Only want of memory refuses.
pub fn rewritten_task<R: RewriteDeclarations>(
    alloc: Global,
    store: &mut Store,
    rule: &R,
    task: &Task,
) -> Result<Task, AllocError>
    requires held { TaskHeld store.old task.now }
    requires valid { IsValid (task_at store.old task.now) }
    ensures task { IfOk result (λ t. task_at store.new t
        ≡ rewritten_task (R.rule rule.now) (task_at store.old task.now)) }
    ensures held { IfOk result (TaskHeld store.new) }
    ensures grows { Grows store.old store.new }
{
    let decls = Seq::from_vec(rewritten_decls(alloc, store, rule, task)?);
    let params = task.params.clone()?;
    let locals = task.locals.clone()?;
    with_parts(task, decls, params, locals, task.goal)
}

/// That task alone.
///
/// Only want of memory refuses.
pub fn rewritten_tasks<R: RewriteDeclarations>(
    alloc: Global,
    store: &mut Store,
    rule: &R,
    task: &Task,
) -> Result<Vec<Task>, AllocError>
    requires held { TaskHeld store.old task.now }
    requires valid { IsValid (task_at store.old task.now) }
    ensures tasks { IfOk result (λ ts. tasks_at store.new ts.items
        ≡ rewritten_task (R.rule rule.now) (task_at store.old task.now) ∷ []) }
    ensures held { IfOk result (λ ts. TasksHeld store.new ts.items) }
    ensures grows { Grows store.old store.new }
{
    let made = rewritten_task(alloc, store, rule, task)?;
    one_task(alloc, made)
}
