// The parts of a task: it is carried through the stages of the driver, and each part can be printed.
// They depend on the stages and on the problems of parts; `print`, `names` and `lift` depend on them.
ghost use Rattle.std.specs.Prelude.{◌≡◌, IfOk};
ghost use Rattle.tasks.specs.trees.Node.{Grows};
ghost use Rattle.tasks.specs.Meaning.{task_at, tasks_at, TaskHeld, TasksHeld};
ghost use Rattle.tasks.specs.Valid.{IsValid};
ghost use Rattle.part_texts.specs.Problems.{AreProblems};
ghost use Rattle.statuses.specs.fault_order.Answers.{IsStageAnswer};
ghost use Rattle.program.specs.Order.{Carried, PrintableParts, Printable};
ghost use Rattle.program.specs.Lifted.{IsStaged};
ghost use Rattle.program.specs.Values.{carry_fault, part_fault, parts_in, setting_at, tasks_in};

use crate::source_goals::GoalSetting;
use part_texts::{Driver, PartFault, Problem, problems_of};
use stages::{CarryFault, TaskLevels, Transformation, carry, stages_of};
use statuses::{Fault, RunFault};
use std::alloc::Global;
use tasks::Store;

/// The stages of a driver for a task, and the task carried through them.
#[derive(Drop)]
pub struct StagedTask {
    pub stages: Vec<Transformation>,
    pub carried: TaskLevels,
}

/// The parts of a task, with their problems.
#[derive(Drop)]
pub struct PartProblems {
    pub staged: StagedTask,
    pub problems: Vec<Problem>,
}

// Why there is no text, where a task isn't carried through.
fn carry_fault(fault: CarryFault) -> RunFault
    ensures { result ≡ carry_fault fault }
{
    match fault {
        CarryFault::Memory => RunFault::Memory,
        CarryFault::Misplaced { stage, decl } => {
            RunFault::Refused(Fault::Misplaced { stage, decl })
        }
        CarryFault::TooLarge { stage } => RunFault::Refused(Fault::TooLarge { stage }),
    }
}

// Why there is no text, where a part can't be printed.
fn part_fault(fault: PartFault) -> RunFault
    ensures { result ≡ part_fault fault }
{
    match fault {
        PartFault::Memory => RunFault::Memory,
        PartFault::Polymorphic { part, decl } => {
            RunFault::Refused(Fault::Polymorphic { part, decl })
        }
        PartFault::Unprintable { part, decl } => {
            RunFault::Refused(Fault::Unprintable { part, decl })
        }
        PartFault::NoSyntax { part, symbol } => {
            RunFault::Refused(Fault::NoSyntax { part, symbol })
        }
    }
}

// The task carried through the stages of the driver.
fn carry_task(
    alloc: Global,
    store: &mut Store,
    setting: &GoalSetting,
) -> Result<StagedTask, RunFault>
    requires held { TaskHeld store.old setting.now.task }
    requires valid { IsValid (task_at store.old setting.now.task) }
    ensures carried { IsStageAnswer (Carried (setting_at store.old setting.now)) (tasks_in store.new
        result) }
    ensures staged { IfOk result (IsStaged store.new (task_at store.old setting.now.task)) }
    ensures grows { Grows store.old store.new }
{
    let stages = stages_of(alloc, &setting.driver, &setting.task)?;
    match carry(alloc, store, &stages, &setting.task) {
        Ok(carried) => Ok(StagedTask { stages, carried }),
        Err(fault) => Err(carry_fault(fault)),
    }
}

// The parts with their problems.
fn with_problems(
    alloc: Global,
    store: &Store,
    driver: &Driver,
    staged: StagedTask,
) -> Result<PartProblems, RunFault>
    requires held { TasksHeld store.now staged.carried.tasks.items }
    ensures parts { IsStageAnswer (Printable driver.now
        (tasks_at store.now staged.carried.tasks.items)) (parts_in store.now result) }
    ensures staged { IfOk result (λ p. p.staged ≡ staged) }
    ensures problems { IfOk result (λ p. AreProblems store.now driver.now
        (tasks_at store.now p.staged.carried.tasks.items) p.problems.items) }
{
    match problems_of(alloc, store, driver, &staged.carried.tasks) {
        Ok(problems) => Ok(PartProblems { staged, problems }),
        Err(fault) => Err(part_fault(fault)),
    }
}

/// The parts of a goal's task under its driver, with their problems.
pub fn find_parts(
    alloc: Global,
    store: &mut Store,
    setting: &GoalSetting,
) -> Result<PartProblems, RunFault>
    requires held { TaskHeld store.old setting.now.task }
    requires valid { IsValid (task_at store.old setting.now.task) }
    ensures parts { IsStageAnswer (PrintableParts (setting_at store.old setting.now))
        (parts_in store.new
        result) }
    ensures staged { IfOk result (λ p. IsStaged store.new (task_at store.old setting.now.task)
        p.staged) }
    ensures problems { IfOk result (λ p. AreProblems store.new setting.now.driver
        (tasks_at store.new p.staged.carried.tasks.items) p.problems.items) }
    ensures grows { Grows store.old store.new }
{
    let staged = carry_task(alloc, store, setting)?;
    with_problems(alloc, store, &setting.driver, staged)
}
