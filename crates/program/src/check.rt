// The command `check`: whether a file derives a goal from the goal's own theory.
// It depends on the goal's task and on the checker; the top call depends on it.
ghost use Rattle.tasks.specs.Meaning.{task_at, TaskHeld};
ghost use Rattle.statuses.specs.fault_order.Answers.{Answers, EndsAs, IsStageAnswer, result_bytes};
ghost use Rattle.program.specs.Only.{IsOnlyAnswer};
ghost use Rattle.program.specs.Order.{CheckText, Checks, Derivation};

use crate::source_goals::find_task;
use crate::steps::read_steps;
use statuses::{Library, RunFault, fetch_whole};
use std::alloc::Global;
use step_writing::task_names;
use tasks::{Store, Task};

// Reads a derivation of a task to its end.
fn check_steps(
    alloc: Global,
    store: &mut Store,
    task: &Task,
    bytes: &[u8],
) -> Result<Vec<u8>, RunFault>
    requires held { TaskHeld store.old task.now }
    ensures { IsStageAnswer (Checks (task_at store.old task.now) bytes.now) (result_bytes result) }
{
    let names = task_names(alloc, store, task)?;
    let _ = read_steps(alloc, store, task, &names, None, 1, bytes)?;
    Ok(Vec::from_slice(alloc, b"accepted\n")?)
}

// Fetches and checks the file of a derivation of a task.
fn check_file<L: Library>(
    alloc: Global,
    lib: &mut L,
    mut store: Store,
    task: &Task,
    der: &str,
) -> Result<Vec<u8>, RunFault>
    requires held { TaskHeld store task.now }
    ensures { Answers (Derivation der.now (task_at store task.now)) 1 (λ _. 2) (L.state lib.old)
        (L.state lib.new) (result_bytes result) }
{
    let bytes = fetch_whole(lib, 1, der)?;
    check_steps(alloc, &mut store, task, &bytes)
}

/// `accepted` and a line feed, where a file is a derivation of a goal from the goal's own theory.
///
/// The first fault is answered: the source's length (15), its tokens (10, 11), its syntax (13, then 12 or 14), its theories and their
/// declarations in turn (20 to 40), the theory (60), the goal (61), the file's first wrong line (91), as part 1.
pub fn check_goal<L: Library>(
    alloc: Global,
    lib: &mut L,
    src: &str,
    theory: &str,
    goal: &str,
    der: &str,
) -> Result<Vec<u8>, RunFault>
    ensures answers { EndsAs (CheckText src.now theory.now goal.now der.now) (L.state lib.old)
        (L.state lib.new) (result_bytes result) }
    ensures only { IsOnlyAnswer (CheckText src.now theory.now goal.now der.now) (L.state lib.old)
        (result_bytes result) }
{
    let mut store = Store::new(alloc)?;
    let task = find_task(alloc, lib, &mut store, src, theory, goal)?;
    check_file(alloc, lib, store, &task, der)
}
