// The command `lift`: from refutations of a goal's problems, a derivation of the goal from its theory.
// It depends on the parts of the goal's task, the refutations and the derivation; the top call depends on it.
ghost use Rattle.std.specs.Prelude.{◌≡◌, ◌≢◌, ◌+◌, length, map, string_bytes, MatchResult, IfOk};
ghost use Rattle.tasks.specs.trees.Node.{Grows};
ghost use Rattle.tasks.specs.Meaning.{task_at, tasks_at, TaskHeld, TasksHeld};
ghost use Rattle.tasks.specs.Valid.{IsValid};
ghost use Rattle.stages.specs.evidence.Stages.{PartsClose, PartsHeld, parts_at};
ghost use Rattle.tasks.specs.Words.{NamesAreWords};
ghost use Rattle.part_texts.specs.Problems.{AreProblems};
ghost use Rattle.statuses.specs.fault_order.Answers.{Answers, EndsAs, result_bytes};
ghost use Rattle.program.specs.Order.{Handed, Lifting, LiftText, RefutationsRead};
ghost use Rattle.program.specs.Only.{IsOnlyStop};
ghost use Rattle.program.specs.Lifted.{IsRefutedTask};
ghost use Rattle.program.specs.Values.{handed_in, refuted_in, setting_at};

use crate::derivation::{RefutedTask, lifted_text};
use crate::parts::{PartProblems, find_parts};
use crate::refutations::read_files;
use crate::setting::valid_setting;
use crate::source_goals::GoalSetting;
use part_texts::{Driver, Problem};
use rules::Step;
use statuses::{Fault, Library, RunFault, Seq};
use std::alloc::Global;
use tasks::{Store, Task};

// Whether there are as many files as parts.
fn count_files(parts: usize, files: usize) -> Result<(), RunFault>
    ensures { MatchResult result (λ _. parts ≡ files) (λ e. (parts ≢ files)
        × (e ≡ RunFault.Refused (Fault.PartCount parts files))) }
{
    if parts == files {
        Ok(())
    } else {
        Err(RunFault::Refused(Fault::PartCount {
            want: parts,
            have: files,
        }))
    }
}

// The refutations of parts, in the files after those of the driver, where there are as many files as parts.
fn read_counted<L: Library>(
    alloc: Global,
    lib: &mut L,
    store: &mut Store,
    driver: &Driver,
    parts: &[Task],
    problems: &[Problem],
    refs: &[String],
) -> Result<Vec<Seq<Step>>, RunFault>
    requires held { TasksHeld store.old parts.now }
    requires problems { AreProblems store.old driver.now (tasks_at store.old parts.now)
        problems.now }
    ensures answers { Answers (Handed driver.now (map string_bytes refs.now) (tasks_at store.old
        parts.now)) driver.now.next_file (λ _. length refs.now + driver.now.next_file)
        (L.state lib.old) (L.state lib.new) (handed_in store.new result) }
    ensures held { IfOk result (λ v. PartsHeld store.new v.items) }
    ensures refuted { IfOk result (λ v. PartsClose (tasks_at store.old parts.now)
        (parts_at store.new v.items)) }
    ensures grows { Grows store.old store.new }
{
    count_files(parts.len(), refs.len())?;
    read_files(alloc, lib, store, driver, parts, problems, refs)
}

// The refutations of the parts of a task, which is carried through the stages of its driver.
fn read_handed<L: Library>(
    alloc: Global,
    lib: &mut L,
    store: &mut Store,
    setting: &GoalSetting,
    refs: &[String],
) -> Result<RefutedTask, RunFault>
    requires held { TaskHeld store.old setting.now.task }
    requires valid { IsValid (task_at store.old setting.now.task) }
    ensures answers { Answers (RefutationsRead (map string_bytes refs.now) (setting_at store.old
        setting.now)) setting.now.driver.next_file
        (λ _. length refs.now + setting.now.driver.next_file) (L.state lib.old)
        (L.state lib.new) (refuted_in store.new result) }
    ensures refuted { IfOk result (IsRefutedTask store.new (task_at store.old setting.now.task)) }
    ensures grows { Grows store.old store.new }
{
    let parts = find_parts(alloc, store, setting)?;
    let handed = read_counted(
        alloc,
        lib,
        store,
        &setting.driver,
        &parts.staged.carried.tasks,
        &parts.problems,
        refs,
    )?;
    let PartProblems { staged, problems } = parts;
    let _ = problems;
    Ok(RefutedTask { staged, handed })
}

// The derivation of a task.
fn lift_task<L: Library>(
    alloc: Global,
    lib: &mut L,
    mut store: Store,
    setting: &GoalSetting,
    refs: &[String],
) -> Result<Vec<u8>, RunFault>
    requires held { TaskHeld store setting.now.task }
    requires valid { IsValid (task_at store setting.now.task) }
    requires names { NamesAreWords (task_at store setting.now.task) }
    ensures { Answers (Lifting (map string_bytes refs.now) (setting_at store setting.now))
        setting.now.driver.next_file (λ _. length refs.now + setting.now.driver.next_file)
        (L.state lib.old) (L.state lib.new) (result_bytes result) }
{
    let refuted = read_handed(alloc, lib, &mut store, setting, refs)?;
    let text = lifted_text(alloc, store, &setting.task, refuted)?;
    Ok(text)
}

/// A derivation of the goal from its theory, from refutations of the problems of its task, in order. For each step of a
/// refutation it has a step with the same sequent.
///
/// The order of faults is that of `print_goal`; then the number of refutations (90), and then for each of them in turn its length
/// (15) and its first wrong line (91).
pub fn lift_goal<L: Library>(
    alloc: Global,
    lib: &mut L,
    src: &str,
    drv: &str,
    theory: &str,
    goal: &str,
    refs: &[String],
) -> Result<Vec<u8>, RunFault>
    ensures answers { EndsAs (LiftText src.now drv.now theory.now goal.now (map string_bytes
        refs.now)) (L.state lib.old) (L.state lib.new) (result_bytes result) }
    ensures only { IsOnlyStop (LiftText src.now drv.now theory.now goal.now (map string_bytes
        refs.now)) (L.state lib.old) (result_bytes result) }
{
    let mut store = Store::new(alloc)?;
    let found = valid_setting(alloc, lib, &mut store, src, drv, theory, goal)?;
    lift_task(alloc, lib, store, &found, refs)
}
