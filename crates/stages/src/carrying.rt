// Tasks carried through stages.
// It depends on the transformations; the program depends on it.
ghost use Rattle.std.specs.Prelude.{map, Ok, IfOk, IfErr};
ghost use Rattle.tasks.specs.trees.Node.{Grows};
ghost use Rattle.tasks.specs.Meaning.{task_at, tasks_at, TaskHeld};
ghost use Rattle.tasks.specs.Valid.{IsValid};
ghost use Rattle.evidence.specs.stage_limits.Limits.{limited};
ghost use Rattle.stages.specs.transformations.Transformations.{equation_of};
ghost use Rattle.stages.specs.Carried.{carried_once, carried_task, at_stage};
ghost use Rattle.stages.specs.Faults.{IsCarryFault};
ghost use Rattle.stages.specs.Levels.{BecomeEach, IsCarried};
ghost use Rattle.stages.specs.Steps.{AreTasks, AreTasksOf, ArePushed, IsAlone};

use crate::fault::{CarryFault, fault_at};
use crate::task_levels::{Level, TaskLevels};
use crate::transformations::Transformation;
use evidence::Transform;
use evidence::stage_limits::limit_tasks;
use std::alloc::{AllocError, Global};
use tasks::{Store, Task};

// Puts the tasks that a task becomes after the others, and says how many they are.
fn push_tasks(
    alloc: Global,
    store: &mut Store,
    stage: &Transformation,
    number: usize,
    task: &Task,
    all: &mut Vec<Task>,
) -> Result<usize, CarryFault>
    requires held { TaskHeld store.old task.now }
    requires valid { IsValid (task_at store.old task.now) }
    requires all { AreTasks store.old all.old.items }
    ensures pushed { IfOk result (ArePushed (equation_of stage.now
        (task_at store.old task.now)) store.old all.old.items store.new all.new.items) }
    ensures fault { IfErr result (IsCarryFault (at_stage number (equation_of stage.now
        (task_at store.old task.now)))) }
    ensures grows { Grows store.old store.new }
{
    match stage.apply(alloc, store, task) {
        Ok(made) => {
            let mut made = made;
            let count = made.len();
            all.append(&mut made)?;
            Ok(count)
        }
        Err(fault) => Err(fault_at(number, fault)),
    }
}

// The tasks where they aren't too large, else `TooLarge`.
fn limited_at(store: &Store, number: usize, tasks: Vec<Task>) -> Result<Vec<Task>, CarryFault>
    requires { AreTasks store.now tasks.items }
    ensures tasks { IfOk result (λ ts. AreTasksOf (limited (tasks_at store.now tasks.items))
        store.now ts.items) }
    ensures fault { IfErr result (IsCarryFault (at_stage number
        (limited (tasks_at store.now tasks.items)))) }
{
    match limit_tasks(store, tasks) {
        Ok(tasks) => Ok(tasks),
        Err(_) => Err(CarryFault::TooLarge { stage: number }),
    }
}

/// The tasks that tasks become by the stage with this number, and how many each of them becomes.
pub(crate) fn carry_once(
    alloc: Global,
    store: &mut Store,
    stage: &Transformation,
    number: usize,
    tasks: &[Task],
) -> Result<(Vec<Task>, Vec<usize>), CarryFault>
    requires { AreTasks store.old tasks.now }
    ensures tasks { IfOk result (λ r. AreTasksOf (carried_once (equation_of stage.now)
        (tasks_at store.old tasks.now)) store.new r.0.items) }
    ensures counts { IfOk result (λ r. BecomeEach (equation_of stage.now)
        (tasks_at store.old tasks.now) r.1.items (tasks_at store.new r.0.items)) }
    ensures fault { IfErr result (IsCarryFault (at_stage number (carried_once
        (equation_of stage.now) (tasks_at store.old tasks.now)))) }
    ensures grows { Grows store.old store.new }
{
    let mut all = Vec::new(alloc);
    let mut counts = Vec::with_capacity(alloc, tasks.len())?;
    for i in 0..tasks.len() {
        let count = push_tasks(alloc, store, stage, number, &tasks[i], &mut all)?;
        counts.push(count)?;
    }
    let made = limited_at(store, number, all)?;
    Ok((made, counts))
}

// A copy of a task, alone.
fn copy_task(alloc: Global, task: &Task) -> Result<Vec<Task>, AllocError>
    ensures { IfOk result (λ ts. IsAlone task.now ts.items) }
{
    let mut tasks = Vec::with_capacity(alloc, 1)?;
    tasks.push(task.with_goal(alloc, task.goal)?)?;
    Ok(tasks)
}

/// A task carried through stages in order, the first of which has number 0: the tasks that it becomes, and the levels on the way.
/// Each level is what the stage's equation says of the one before.
///
/// The first refusal is answered: in each stage that of each task in turn, `Misplaced` at a declaration that the
/// transformation doesn't take, or `TooLarge` where one of its tasks has more than 2^20 tree nodes or a tree that is higher
/// than 2,000, or they have more than 2^23 nodes together; then `TooLarge` where all tasks of the stage have more than 2^23
/// nodes together. Else only want of memory refuses.
pub fn carry(
    alloc: Global,
    store: &mut Store,
    stages: &[Transformation],
    task: &Task,
) -> Result<TaskLevels, CarryFault>
    requires held { TaskHeld store.old task.now }
    requires valid { IsValid (task_at store.old task.now) }
    ensures tasks { IfOk result (λ c. AreTasksOf (carried_task (map equation_of stages.now)
        (task_at store.old task.now)) store.new c.tasks.items) }
    ensures carried { IfOk result (λ c. IsCarried (map equation_of stages.now) store.new
        (task_at store.old task.now) c.levels.items c.tasks.items) }
    ensures fault { IfErr result (IsCarryFault (carried_task (map equation_of stages.now)
        (task_at store.old task.now))) }
    ensures grows { Grows store.old store.new }
{
    let mut tasks = copy_task(alloc, task)?;
    let mut levels = Vec::with_capacity(alloc, stages.len())?;
    for number in 0..stages.len() {
        let (made, counts) = carry_once(alloc, store, &stages[number], number, &tasks)?;
        let level = Level { tasks, counts };
        tasks = made;
        levels.push(level)?;
    }
    Ok(TaskLevels { levels, tasks })
}
