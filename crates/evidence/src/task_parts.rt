// What transformations share: a task with other parts and what it keeps, stages of one task, what a goal over formulas and a
// quantifier opened at a new parameter give.
//
// Contract: the task with these parts; laws of what it keeps.

ghost use Rattle.std.specs.Prelude.{◌≡◌, [], ◌∷◌, IfOk};
ghost use Rattle.evidence.specs.task_parts.Parts.{IsWithParts};

use std::alloc::{AllocError, Global};
use tasks::{Decl, Seq, Task, TermId};

/// The task with these declarations, parameters, locals and goal.
///
/// Only want of memory refuses.
pub fn with_parts(
    task: &Task,
    decls: Seq<Decl>,
    params: Seq<TermId>,
    locals: Seq<TermId>,
    goal: TermId,
) -> Result<Task, AllocError>
    ensures { IfOk result (IsWithParts task.now decls params locals goal) }
{
    Ok(Task {
        sig: task.sig.clone()?,
        rigid: task.rigid.clone()?,
        decls,
        params,
        locals,
        goal,
    })
}

/// A list of this task alone.
///
/// Only want of memory refuses.
pub fn one_task(alloc: Global, task: Task) -> Result<Vec<Task>, AllocError>
    ensures { IfOk result (λ ts. ts.items ≡ task ∷ []) }
{
    let mut tasks = Vec::with_capacity(alloc, 1)?;
    tasks.push(task)?;
    Ok(tasks)
}
