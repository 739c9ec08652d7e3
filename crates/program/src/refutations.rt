// The refutations that are given, one file for each part of a goal, read in turn.
// They depend on the fetched files and the reader of steps; `lift` depends on them.
ghost use Rattle.std.specs.Prelude.{◌≡◌, ◌+◌, ◌<◌, length, map, IfOk, string_bytes};
ghost use Rattle.tasks.specs.trees.Node.{Grows};
ghost use Rattle.tasks.specs.Meaning.{task_at, tasks_at, TaskHeld, TasksHeld};
ghost use Rattle.rules.specs.Meaning.{steps_at, StepsHeld};
ghost use Rattle.stages.specs.evidence.Stages.{parts_at, PartsHeld};
ghost use Rattle.part_texts.specs.printed_problems.Problems.{problem_of};
ghost use Rattle.part_texts.specs.Problems.{AreProblems};
ghost use Rattle.statuses.specs.fault_order.Answers.{Answers};
ghost use Rattle.program.specs.Order.{PartFile, FirstFiles};
ghost use Rattle.step_writing.specs.kernel.Right.{Closes};
ghost use Rattle.stages.specs.evidence.Stages.{PartsClose};
ghost use Rattle.program.specs.Values.{steps_in, handed_in};

use crate::steps::read_steps;
use part_texts::{Driver, Problem};
use rules::Step;
use statuses::{Library, RunFault, Seq, fetch_short};
use std::alloc::Global;
use step_writing::NameEntry;
use tasks::{Store, Task};

// The greatest height of a formula in a file of refutations.
const TALLEST: u64 = 2000;

// Fetches and reads the file of a part, which is counted from 0 here.
fn read_file<L: Library>(
    alloc: Global,
    lib: &mut L,
    store: &mut Store,
    driver: &Driver,
    part: &Task,
    names: &[NameEntry],
    place: usize,
    name: &str,
) -> Result<Vec<Step>, RunFault>
    requires held { TaskHeld store.old part.now }
    requires names { names.now ≡ (problem_of driver.now (task_at store.old part.now)).names }
    ensures answers { Answers (PartFile driver.now place (task_at store.old part.now) name.now)
        (place + driver.now.next_file) (λ _. place + driver.now.next_file + 1) (L.state lib.old)
        (L.state lib.new) (steps_in store.new result) }
    ensures held { IfOk result (λ v. StepsHeld store.new v.items) }
    ensures refutes { IfOk result (λ v. Closes (task_at store.old part.now)
        (steps_at store.new v.items)) }
    ensures grows { Grows store.old store.new }
{
    if usize::MAX - driver.next_file <= place {
        // The names of so many files find no memory.
        return Err(RunFault::Memory);
    }
    let bytes = fetch_short(lib, place + driver.next_file, name)?;
    read_steps(alloc, store, part, names, Some(TALLEST), place + 1, &bytes)
}

/// The steps of the files of refutations, each of which is fetched and read before the next one. There are as many
/// files as parts. A file that is too long (15) or isn't a refutation of its part (91) is refused in its turn.
pub(crate) fn read_files<L: Library>(
    alloc: Global,
    lib: &mut L,
    store: &mut Store,
    driver: &Driver,
    parts: &[Task],
    problems: &[Problem],
    names: &[String],
) -> Result<Vec<Seq<Step>>, RunFault>
    requires as_many { length parts.now ≡ length names.now }
    requires held { TasksHeld store.old parts.now }
    requires problems { AreProblems store.old driver.now (tasks_at store.old parts.now)
        problems.now }
    ensures answers { Answers (FirstFiles driver.now (tasks_at store.old parts.now)
        (map string_bytes names.now) (length names.now)) driver.now.next_file
        (λ _. length names.now + driver.now.next_file) (L.state lib.old) (L.state lib.new)
        (handed_in store.new result) }
    ensures held { IfOk result (λ v. PartsHeld store.new v.items) }
    ensures refuted { IfOk result (λ v. PartsClose (tasks_at store.old parts.now)
        (parts_at store.new v.items)) }
    ensures grows { Grows store.old store.new }
{
    let mut handed = Vec::new(alloc);
    for place in 0..parts.len() {
        let steps = read_file(
            alloc,
            lib,
            store,
            driver,
            &parts[place],
            problems[place].names.as_slice(),
            place,
            names[place].as_str(),
        )?;
        handed.push(Seq::from_vec(steps))?;
    }
    Ok(handed)
}
