// The commands `print` and `names`: the problems of a goal in order, and their name tables.
// They depend on the parts of the goal's task and on their texts; the top call depends on them.
ghost use Rattle.tasks.specs.Meaning.{task_at, TaskHeld};
ghost use Rattle.tasks.specs.Valid.{IsValid};
ghost use Rattle.statuses.specs.fault_order.Answers.{EndsAs, IsStageAnswer, result_bytes};
ghost use Rattle.program.specs.Order.{NamesText, ProblemTables, PrintText, ProblemTexts};
ghost use Rattle.program.specs.Only.{IsOnlyAnswer};
ghost use Rattle.program.specs.Values.{setting_at};

use crate::parts::find_parts;
use crate::setting::valid_setting;
use crate::source_goals::GoalSetting;
use part_texts::{name_texts, part_texts};
use statuses::{Library, RunFault};
use std::alloc::Global;
use tasks::Store;

// The texts of the problems of a task.
fn print_task(alloc: Global, store: &mut Store, setting: &GoalSetting) -> Result<Vec<u8>, RunFault>
    requires held { TaskHeld store.old setting.now.task }
    requires valid { IsValid (task_at store.old setting.now.task) }
    ensures { IsStageAnswer (ProblemTexts (setting_at store.old setting.now))
        (result_bytes result) }
{
    let parts = find_parts(alloc, store, setting)?;
    let text = part_texts(
        alloc,
        store,
        &setting.driver,
        &parts.staged.carried.tasks,
        &parts.problems,
    )?;
    Ok(text)
}

// The name tables of the problems of a task.
fn name_task(alloc: Global, store: &mut Store, setting: &GoalSetting) -> Result<Vec<u8>, RunFault>
    requires held { TaskHeld store.old setting.now.task }
    requires valid { IsValid (task_at store.old setting.now.task) }
    ensures { IsStageAnswer (ProblemTables (setting_at store.old setting.now))
        (result_bytes result) }
{
    let parts = find_parts(alloc, store, setting)?;
    let text = name_texts(
        alloc,
        store,
        &setting.driver,
        &parts.staged.carried.tasks,
        &parts.problems,
    )?;
    Ok(text)
}

/// The problems of a goal: the texts of its task, carried through the driver's transformations, in order.
///
/// The first fault is answered: the source's length (15), its tokens (10, 11), its syntax (13, then 12 or 14), its theories and their
/// declarations in turn (20 to 40); the driver's files (15, 50 to 55); the theory (60), the goal (61); a transformation that isn't
/// built (16); the stages in order (70, 71); the problems in order (80 to 82).
pub fn print_goal<L: Library>(
    alloc: Global,
    lib: &mut L,
    src: &str,
    drv: &str,
    theory: &str,
    goal: &str,
) -> Result<Vec<u8>, RunFault>
    ensures answers { EndsAs (PrintText src.now drv.now theory.now goal.now) (L.state lib.old)
        (L.state lib.new) (result_bytes result) }
    ensures only { IsOnlyAnswer (PrintText src.now drv.now theory.now goal.now) (L.state lib.old)
        (result_bytes result) }
{
    let mut store = Store::new(alloc)?;
    let found = valid_setting(alloc, lib, &mut store, src, drv, theory, goal)?;
    print_task(alloc, &mut store, &found)
}

/// The name table of each problem of a goal, in order. The faults are those of `print_goal`.
pub fn names_goal<L: Library>(
    alloc: Global,
    lib: &mut L,
    src: &str,
    drv: &str,
    theory: &str,
    goal: &str,
) -> Result<Vec<u8>, RunFault>
    ensures answers { EndsAs (NamesText src.now drv.now theory.now goal.now) (L.state lib.old)
        (L.state lib.new) (result_bytes result) }
    ensures only { IsOnlyAnswer (NamesText src.now drv.now theory.now goal.now) (L.state lib.old)
        (result_bytes result) }
{
    let mut store = Store::new(alloc)?;
    let found = valid_setting(alloc, lib, &mut store, src, drv, theory, goal)?;
    name_task(alloc, &mut store, &found)
}
