// The derivation of a task that refutations of its parts are lifted to, and its text.
// It depends on the stages and on the writer of steps; `lift` depends on it.
ghost use Rattle.std.specs.Prelude.{IfOk};
ghost use Rattle.tasks.specs.Meaning.{task_at, TaskHeld};
ghost use Rattle.tasks.specs.Valid.{IsValid};
ghost use Rattle.stages.specs.evidence.Stages.{parts_at};
ghost use Rattle.tasks.specs.Words.{NamesAreWords};
ghost use Rattle.program.specs.Lifted.{IsLifted, IsRefutedTask};

use crate::parts::StagedTask;
use rules::Step;
use stages::{Derived, lift};
use statuses::Seq;
use std::alloc::{AllocError, Global};
use step_writing::write_derivation;
use tasks::{Store, Task};

/// A task carried through the stages of a driver, with refutations of its parts.
#[derive(Drop)]
pub struct RefutedTask {
    pub staged: StagedTask,
    pub handed: Vec<Seq<Step>>,
}

/// The text of a derivation of a task, from refutations of its parts.
pub fn lifted_text(
    alloc: Global,
    store: Store,
    task: &Task,
    refuted: RefutedTask,
) -> Result<Vec<u8>, AllocError>
    requires held { TaskHeld store task.now }
    requires valid { IsValid (task_at store task.now) }
    requires names { NamesAreWords (task_at store task.now) }
    requires refuted { IsRefutedTask store (task_at store task.now) refuted }
    ensures { IfOk result (λ v. IsLifted (task_at store task.now)
        (parts_at store refuted.handed.items) v.items) }
{
    let RefutedTask { staged, handed } = refuted;
    let StagedTask { stages, carried } = staged;
    let derived = lift(alloc, store, &stages, carried, handed)?;
    let Derived { store, steps } = derived;
    let mut store = store;
    write_derivation(alloc, &mut store, task, steps.as_slice())
}
