// The steps of a file, which is read to its end.
// They depend on the reader of steps; `check` and the reading of refutations depend on them.
ghost use Rattle.std.specs.Prelude.{IfOk};
ghost use Rattle.tasks.specs.trees.Node.{Grows};
ghost use Rattle.tasks.specs.Meaning.{task_at, TaskHeld};
ghost use Rattle.rules.specs.Meaning.{steps_at, StepsHeld};
ghost use Rattle.step_writing.specs.kernel.Right.{Closes};
ghost use Rattle.statuses.specs.fault_order.Answers.{IsStageAnswer};
ghost use Rattle.program.specs.Order.{AreSteps};
ghost use Rattle.program.specs.Values.{steps_in};

use rules::Step;
use statuses::{Fault, RunFault};
use std::alloc::Global;
use step_writing::{NameEntry, ReadFault, read_whole};
use tasks::{Store, Task};

/// The steps of a file's bytes, which derive a task. The first wrong line is refused (91), as one of the part with this number.
pub(crate) fn read_steps(
    alloc: Global,
    store: &mut Store,
    task: &Task,
    names: &[NameEntry],
    tallest: Option<u64>,
    part: usize,
    bytes: &[u8],
) -> Result<Vec<Step>, RunFault>
    requires held { TaskHeld store.old task.now }
    ensures steps { IsStageAnswer (AreSteps (task_at store.old task.now) names.now tallest part
        bytes.now) (steps_in store.new result) }
    ensures held { IfOk result (λ v. StepsHeld store.new v.items) }
    ensures closes { IfOk result (λ v. Closes (task_at store.old task.now)
        (steps_at store.new v.items)) }
    ensures grows { Grows store.old store.new }
{
    match read_whole(alloc, store, task, names, tallest, bytes) {
        Ok(steps) => Ok(steps),
        Err(ReadFault::Memory) => Err(RunFault::Memory),
        Err(ReadFault::WrongLine { line }) => {
            Err(RunFault::Refused(Fault::WrongLine { part, line }))
        }
    }
}
