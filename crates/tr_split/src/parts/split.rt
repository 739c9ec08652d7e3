// A task for each part of a goal.
ghost use Rattle.std.specs.Prelude.{◌≡◌, map, All, IfOk};
ghost use Rattle.trees.specs.Node.{Holds, Grows};
ghost use Rattle.tasks.specs.Copying.{with_goal};
ghost use Rattle.tasks.specs.Meaning.{trees_at, task_at, tasks_at, TaskHeld, TasksHeld};
ghost use Rattle.tasks.specs.Valid.{IsValid};
ghost use Rattle.tr_split.specs.parts.Split.{split_task};

use crate::parts::parts::add_parts;
use std::alloc::{AllocError, Global};
use tasks::Task;
use trees::store::{Store, TermId};

/// A task for each part of the goal, in order: `split_goal_right` of the Why3 manual, by cases on the formula.
///
/// Only want of memory refuses.
pub fn split_goal(alloc: Global, store: &mut Store, task: &Task) -> Result<Vec<Task>, AllocError>
    requires held { TaskHeld store.old task.now }
    requires valid { IsValid (task_at store.old task.now) }
    ensures held { IfOk result (λ ts. TasksHeld store.new ts.items) }
    ensures tasks { IfOk result (λ ts. tasks_at store.new ts.items
        ≡ split_task (task_at store.old task.now)) }
    ensures grows { Grows store.old store.new }
{
    let mut goals = Vec::new(alloc);
    add_parts(alloc, store, task.goal, &mut goals)?;
    tasks_for(alloc, store, task, &goals)
}

// The task with each of these goals in turn.
fn tasks_for(
    alloc: Global,
    store: &Store,
    task: &Task,
    goals: &[TermId],
) -> Result<Vec<Task>, AllocError>
    requires held { TaskHeld store.now task.now }
    requires goals_held { All (Holds store.now) goals.now }
    ensures held { IfOk result (λ ts. TasksHeld store.now ts.items) }
    ensures tasks { IfOk result (λ ts. tasks_at store.now ts.items
        ≡ map (with_goal (task_at store.now task.now)) (trees_at store.now goals.now)) }
{
    let mut tasks = Vec::with_capacity(alloc, goals.len())?;
    for goal in goals {
        tasks.push(task.with_goal(alloc, *goal)?)?;
    }
    Ok(tasks)
}
