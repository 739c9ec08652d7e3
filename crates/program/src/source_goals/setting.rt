// The task of a goal, and the driver that it goes through.
// It depends on the theories of a source and on the driver; `print`, `names` and `lift` depend on it.
ghost use Rattle.std.specs.Prelude.{IfOk};
ghost use Rattle.tasks.specs.Meaning.{symbols_at, task_at, TaskHeld};
ghost use Rattle.theories.specs.theory_states.goal_tasks.Meaning.{theories_at, AllTheoriesHeld, AreTuples};
ghost use Rattle.statuses.specs.fault_order.Answers.{Answers, IsStageAnswer};
ghost use Rattle.program.specs.source_goals.Order.{Driven, GoalUnder, TaskUnder};
ghost use Rattle.program.specs.source_goals.Sources.{AreSourceTheories, IsSourceTask};
ghost use Rattle.program.specs.source_goals.Values.{next_in, setting_in};

use crate::source_goals::goal::{fetch_theories, task_in};
use crate::source_goals::known::driver_over;
use drivers::driver_files::Driver;
use statuses::fault_order::{Library, RunFault};
use std::alloc::Global;
use tasks::{Store, Task};
use theories::Theories;

/// A goal's task with a driver.
#[derive(Drop)]
pub struct GoalSetting {
    pub driver: Driver,
    pub task: Task,
}

// The task of a goal of theories, under a driver.
fn task_under(
    alloc: Global,
    store: &Store,
    all: &Theories,
    driver: Driver,
    theory: &str,
    goal: &str,
) -> Result<GoalSetting, RunFault>
    requires held { AllTheoriesHeld store.now all.now }
    requires tuples { AreTuples (symbols_at store.now all.now.sig.value.symbols) }
    requires source { AreSourceTheories (theories_at store.now all.now) }
    ensures answers { IsStageAnswer (TaskUnder theory.now goal.now (theories_at store.now all.now)
        driver) (setting_in store.now result) }
    ensures held { IfOk result (λ g. TaskHeld store.now g.task) }
    ensures source { IfOk result (λ g. IsSourceTask (task_at store.now g.task)) }
{
    let task = task_in(alloc, store, all, theory, goal)?;
    Ok(GoalSetting { driver, task })
}

// The task of a goal of theories, under a driver that is read first.
fn task_driven<L: Library>(
    alloc: Global,
    lib: &mut L,
    store: &Store,
    all: &Theories,
    drv: &str,
    theory: &str,
    goal: &str,
) -> Result<GoalSetting, RunFault>
    requires held { AllTheoriesHeld store.now all.now }
    requires tuples { AreTuples (symbols_at store.now all.now.sig.value.symbols) }
    requires source { AreSourceTheories (theories_at store.now all.now) }
    ensures answers { Answers (Driven drv.now theory.now goal.now (theories_at store.now all.now)) 1
        next_in (L.state lib.old) (L.state lib.new) (setting_in store.now result) }
    ensures held { IfOk result (λ g. TaskHeld store.now g.task) }
    ensures source { IfOk result (λ g. IsSourceTask (task_at store.now g.task)) }
{
    let driver = driver_over(alloc, lib, all, drv)?;
    task_under(alloc, store, all, driver, theory, goal)
}

/// The task of a goal of a source, by the names of its theory and of itself, and the driver that it goes through.
///
/// The source is the first file, with the number 0, and those of the driver have the numbers from 1 on. The first of these is
/// answered, where one is in the way: the source isn't there, can't be read or is too long (15); what is wrong with its text
/// (10 to 14) or with its theories (20 to 40); what is wrong with the driver's files (absent, unread, 15, 50 to 55); the source has
/// no such theory (60), or the theory no such goal (61). Else only want of memory refuses. A block of a driver for a theory that is
/// neither in the source nor embedded is passed over.
pub fn find_setting<L: Library>(
    alloc: Global,
    lib: &mut L,
    store: &mut Store,
    src: &str,
    drv: &str,
    theory: &str,
    goal: &str,
) -> Result<GoalSetting, RunFault>
    ensures answers { Answers (GoalUnder src.now drv.now theory.now goal.now) 0 next_in
        (L.state lib.old) (L.state lib.new) (setting_in store.new result) }
    ensures held { IfOk result (λ g. TaskHeld store.new g.task) }
    ensures source { IfOk result (λ g. IsSourceTask (task_at store.new g.task)) }
{
    let all = fetch_theories(alloc, lib, store, src)?;
    task_driven(alloc, lib, store, &all, drv, theory, goal)
}
