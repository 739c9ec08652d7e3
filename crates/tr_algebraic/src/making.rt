// The task in which algebraic types are symbols with their laws.
// It depends on the task without `match`es; the transformation gives it.
ghost use Rattle.std.specs.Prelude.{◌≡◌, [], ◌∷◌, Ok, IfOk, IfErr};
ghost use Rattle.tasks.specs.trees.Node.{Grows};
ghost use Rattle.tasks.specs.Task.{TaskTree};
ghost use Rattle.tasks.specs.Meaning.{task_at, tasks_at, TaskHeld, TasksHeld};
ghost use Rattle.tasks.specs.Valid.{IsValid};
ghost use Rattle.evidence.specs.Stages.{IsStageFault, stage_equation};
ghost use Rattle.tr_algebraic.specs.algebraic_tasks.Plain.{task_with_laws};
ghost use Rattle.tr_algebraic.specs.Equation.{algebraic_equation};

use crate::algebraic_tasks::{refused_place, tasks_with_laws};
use evidence::{StageFault, Transform};
use std::alloc::{AllocError, Global};
use tasks::{Store, Task};
use tr_match::Matches;

// The task with laws of the one task of a list.
fn with_laws(alloc: Global, store: &mut Store, plain: &[Task]) -> Result<Vec<Task>, AllocError>
    requires held { TasksHeld store.old plain.now }
    requires one { (u : TaskTree) × (tasks_at store.old plain.now ≡ u ∷ []) × IsValid u }
    ensures tasks { IfOk result (λ ts. (u : TaskTree) → tasks_at store.old plain.now ≡ u ∷ []
        → tasks_at store.new ts.items ≡ task_with_laws u ∷ []) }
    ensures held { IfOk result (λ ts. TasksHeld store.new ts.items) }
    ensures grows { Grows store.old store.new }
{
    let made = tasks_with_laws(alloc, store, &plain[0])?;
    Ok(made)
}

/// The task of the equation, alone, or the declaration that isn't taken, which is told before anything is made.
pub(crate) fn algebraic_tasks(
    alloc: Global,
    store: &mut Store,
    task: &Task,
) -> Result<Vec<Task>, StageFault>
    requires held { TaskHeld store.old task.now }
    requires valid { IsValid (task_at store.old task.now) }
    ensures held { IfOk result (λ ts. TasksHeld store.new ts.items) }
    ensures tasks { IfOk result (λ ts. algebraic_equation (task_at store.old task.now)
        ≡ Ok (tasks_at store.new ts.items)) }
    ensures fault { IfErr result (IsStageFault
        (stage_equation algebraic_equation (task_at store.old task.now))) }
    ensures grows { Grows store.old store.new }
{
    match refused_place(task.decls.as_slice(), 0) {
        Some(decl) => Err(StageFault::Misplaced { decl }),
        None => {
            let plain = Matches.apply(alloc, store, task)?;
            let made = with_laws(alloc, store, &plain)?;
            Ok(made)
        }
    }
}
