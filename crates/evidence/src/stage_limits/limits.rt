// Whether tasks are small enough, and the tasks where they are.
ghost use Rattle.std.specs.Prelude.{◌≡◌, min, sum_by, Ok, Err, IfOk, IfErr};
ghost use Rattle.std.specs.List.{list_all};
ghost use Rattle.tasks.specs.Task.{nodes};
ghost use Rattle.tasks.specs.Meaning.{task_at, tasks_at, TaskHeld, TasksHeld};
ghost use Rattle.evidence.specs.stage_limits.Limits.{TooLarge, is_small, are_small, limited};

use crate::stage_limits::heights::task_height;
use tasks::{Task, nodes};
use trees::store::Store;

const NODES: u64 = 1 << 20;

const HEIGHT: u64 = 2000;

const NODES_TOGETHER: u64 = 1 << 23;

// Whether a task is small enough.
fn is_small(store: &Store, task: &Task) -> bool
    requires { TaskHeld store.now task.now }
    ensures { result ≡ is_small (task_at store.now task.now) }
{
    nodes(store, task) <= NODES && task_height(store, task) <= HEIGHT
}

// Whether each task is small enough.
fn each_is_small(store: &Store, tasks: &[Task]) -> bool
    requires { TasksHeld store.now tasks.now }
    ensures { result ≡ list_all is_small (tasks_at store.now tasks.now) }
{
    for task in tasks {
        if !is_small(store, task) {
            return false;
        }
    }
    true
}

// The nodes of tasks, or the greatest number.
fn nodes_together(store: &Store, tasks: &[Task]) -> u64
    requires { TasksHeld store.now tasks.now }
    ensures { result ≡ min (sum_by nodes (tasks_at store.now tasks.now)) u64.MAX }
{
    let mut all = 0u64;
    for task in tasks {
        all = all.saturating_add(nodes(store, task));
    }
    all
}

/// Whether tasks are small enough: each has at most 2^20 tree nodes and no tree higher than 2,000, and all together have
/// at most 2^23 nodes.
pub fn are_small(store: &Store, tasks: &[Task]) -> bool
    requires { TasksHeld store.now tasks.now }
    ensures { result ≡ are_small (tasks_at store.now tasks.now) }
{
    each_is_small(store, tasks) && nodes_together(store, tasks) <= NODES_TOGETHER
}

/// Some task is above the bound, or they are together.
#[derive(Clone, Copy)]
pub struct AboveBound;

/// The tasks where they are small enough, else that they are above the bound.
pub fn limit_tasks(store: &Store, tasks: Vec<Task>) -> Result<Vec<Task>, AboveBound>
    requires { TasksHeld store.now tasks.items }
    ensures held { IfOk result (λ ts. TasksHeld store.now ts.items) }
    ensures tasks { IfOk result (λ ts. limited (tasks_at store.now tasks.items)
        ≡ Ok (tasks_at store.now ts.items)) }
    ensures large { IfErr result (λ _. limited (tasks_at store.now tasks.items) ≡ Err TooLarge) }
{
    if are_small(store, &tasks) {
        Ok(tasks)
    } else {
        Err(AboveBound)
    }
}
