// The task of a goal of a source, and the driver that it goes through. What the laws of sources say of the task is told here.
// It depends on the goals of sources; the commands depend on it.
ghost use Rattle.std.specs.Prelude.{IfOk};
ghost use Rattle.tasks.specs.Meaning.{task_at, TaskHeld};
ghost use Rattle.tasks.specs.Valid.{IsValid};
ghost use Rattle.tasks.specs.Words.{NamesAreWords};
ghost use Rattle.statuses.specs.fault_order.Answers.{Answers};
ghost use Rattle.program.specs.source_goals.Order.{GoalUnder};
ghost use Rattle.program.specs.source_goals.Values.{next_in, setting_in};

use crate::source_goals::{GoalSetting, find_setting};
use statuses::{Library, RunFault};
use std::alloc::Global;
use tasks::Store;

/// The task of a goal of the source, with the driver of a file.
pub fn valid_setting<L: Library>(
    alloc: Global,
    lib: &mut L,
    store: &mut Store,
    src: &str,
    drv: &str,
    theory: &str,
    goal: &str,
) -> Result<GoalSetting, RunFault>
    ensures answers { Answers (GoalUnder src.now drv.now theory.now goal.now) 0 next_in
        (L.state lib.old) (L.state lib.new) (setting_in store.new result) }
    ensures held { IfOk result (λ g. TaskHeld store.new g.task) }
    ensures valid { IfOk result (λ g. IsValid (task_at store.new g.task)) }
    ensures names { IfOk result (λ g. NamesAreWords (task_at store.new g.task)) }
{
    find_setting(alloc, lib, store, src, drv, theory, goal)
}
