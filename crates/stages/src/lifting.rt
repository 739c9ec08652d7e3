// Refutations of the tasks that a task becomes, brought back through the stages to a derivation of the task.
// It depends on the laws of the transformations; the program depends on it.
ghost use Rattle.std.specs.Prelude.{◌≡◌, ◌≤◌, ◌++◌, ◌∷◌, [], length, reverse, IfOk, map};
ghost use Rattle.tasks.specs.Meaning.{task_at, tasks_at, TaskHeld, TasksHeld};
ghost use Rattle.tasks.specs.Valid.{IsValid};
ghost use Rattle.kernel.specs.Right.{last_starts};
ghost use Rattle.evidence.specs.Drafts.{Extends};
ghost use Rattle.evidence.specs.Stages.{Gives, IsOwnTask, PartsClose, PartsHeld, parts_at};
ghost use Rattle.stages.specs.transformations.Transformations.{equation_of, task_equation_of};
ghost use Rattle.stages.specs.Steps.{IsCopy};
ghost use Rattle.stages.specs.Lifted.{AreDerived, HandedHasSequents, IsDerived};
ghost use Rattle.stages.specs.Levels.{IsCarried, IsRefutedLevel, carried_from};

use crate::task_levels::{Level, TaskLevels};
use crate::transformations::Transformation;
use evidence::{Draft, finish, lift_stage};
use kernel::Step;
use std::alloc::{AllocError, Global};
use std::rc::Rc;
use tasks::{Seq, Store, Task};

/// Steps, with the store that holds their trees.
#[derive(Drop)]
pub struct Derived {
    pub store: Store,
    pub steps: Seq<Step>,
}

/// Lists of steps, one for each task, with the store that holds their trees.
#[derive(Drop)]
pub struct PartSteps {
    pub store: Store,
    pub lists: Vec<Seq<Step>>,
}

// Makes an empty draft of a task one that ends in its start and has the sequents of the given steps.
fn lift_draft(
    stage: &Transformation,
    task: &Task,
    to: &Vec<Task>,
    parts: &[Seq<Step>],
    draft: &mut Draft,
) -> Result<(), AllocError>
    requires own { IsOwnTask draft.old task.now }
    requires to_held { TasksHeld draft.old.trees to.now.items }
    requires gives { Gives (task_equation_of stage.now) draft.old.task
        (tasks_at draft.old.trees to.now.items) }
    requires parts_held { PartsHeld draft.old.trees parts.now }
    requires close { PartsClose (tasks_at draft.old.trees to.now.items)
        (parts_at draft.old.trees parts.now) }
    ensures starts { IfOk result (λ _. last_starts draft.new.task draft.new.steps) }
    ensures sequents { IfOk result (λ _. HandedHasSequents draft.new.steps
        (parts_at draft.old.trees parts.now)) }
    ensures grows { Extends draft.old draft.new }
{
    let number = lift_stage(stage, task, to, parts, draft)?;
    finish(draft, number)
}

// A copy of a task.
fn copy_of(alloc: Global, task: &Task) -> Result<Rc<Task>, AllocError>
    ensures { IfOk result (λ r. IsCopy task.now r.value) }
{
    let copy = task.with_goal(alloc, task.goal)?;
    let copy = Rc::new(alloc, copy)?;
    Ok(copy)
}

// The derivation of a task, from refutations of the tasks that it becomes by a stage.
fn lift_one(
    alloc: Global,
    store: Store,
    stage: &Transformation,
    task: &Task,
    to: &Vec<Task>,
    parts: &[Seq<Step>],
) -> Result<Derived, AllocError>
    requires held { TaskHeld store task.now }
    requires valid { IsValid (task_at store task.now) }
    requires to_held { TasksHeld store to.now.items }
    requires gives { Gives (task_equation_of stage.now) (task_at store task.now)
        (tasks_at store to.now.items) }
    requires parts_held { PartsHeld store parts.now }
    requires close { PartsClose (tasks_at store to.now.items) (parts_at store parts.now) }
    ensures { IfOk result (IsDerived store (task_at store task.now) (parts_at store parts.now)) }
{
    let own = copy_of(alloc, task)?;
    let mut draft = Draft::new(alloc, store, own.clone()?);
    lift_draft(stage, &own, to, parts, &mut draft)?;
    let (store, steps) = draft.into_parts();
    Ok(Derived {
        store,
        steps: Seq::from_vec(steps),
    })
}

// The next tasks, so many of them, of a list that is kept in reverse, so that they can be split off.
fn next_group(left: &mut Vec<Task>, count: usize) -> Result<Vec<Task>, AllocError>
    requires { count ≤ length left.old.items }
    ensures count { IfOk result (λ ts. length ts.items ≡ count) }
    ensures items { IfOk result (λ ts. reverse left.old.items
        ≡ ts.items ++ reverse left.new.items) }
{
    let from = left.len() - count;
    let mut group = left.split_off(from)?;
    group.reverse();
    Ok(group)
}

// The derivations of tasks, from refutations of the tasks that they become by a stage, so many each. Where a stage makes two tasks
// of the first task and one of the second, the counts are 2 and 1: the first derivation is made of the first two of the three
// refutations, and the second of the last.
fn lift_level(
    alloc: Global,
    store: Store,
    stage: &Transformation,
    tasks: &[Task],
    counts: &[usize],
    made: Vec<Task>,
    parts: &[Seq<Step>],
) -> Result<PartSteps, AllocError>
    requires { IsRefutedLevel (equation_of stage.now) store tasks.now counts.now made.items
        parts.now }
    ensures { IfOk result (AreDerived store (tasks_at store tasks.now)
        (parts_at store parts.now)) }
{
    let mut store = store;
    let mut lists = Vec::with_capacity(alloc, tasks.len())?;
    let mut left = made;
    left.reverse();
    let mut used = 0;
    for i in 0..tasks.len() {
        let task = &tasks[i];
        let count = counts[i];
        let next = used + count;
        let to = next_group(&mut left, count)?;
        let derived = lift_one(alloc, store, stage, task, &to, &parts[used..next])?;
        let Derived {
            store: grown,
            steps,
        } = derived;
        lists.push(steps)?;
        store = grown;
        used = next;
    }
    Ok(PartSteps { store, lists })
}

// The derivation of the task that was carried through stages, alone in a list.
fn lift_levels(
    alloc: Global,
    store: Store,
    stages: &[Transformation],
    carried: TaskLevels,
    parts: Vec<Seq<Step>>,
) -> Result<PartSteps, AllocError>
    requires carried { IsCarried (map equation_of stages.now) store (carried_from store carried)
        carried.levels.items carried.tasks.items }
    requires parts_held { PartsHeld store parts.items }
    requires close { PartsClose (tasks_at store carried.tasks.items) (parts_at store parts.items) }
    ensures { IfOk result (AreDerived store (carried_from store carried ∷ [])
        (parts_at store parts.items)) }
{
    let TaskLevels { levels, tasks } = carried;
    let mut store = store;
    let mut levels = levels;
    let mut made = tasks;
    let mut lists = parts;
    while let Some(level) = levels.pop() {
        let Level { tasks, counts } = level;
        let stage = &stages[levels.len()];
        let lifted = lift_level(alloc, store, stage, &tasks, &counts, made, &lists)?;
        let PartSteps {
            store: grown,
            lists: derived,
        } = lifted;
        store = grown;
        made = tasks;
        lists = derived;
    }
    Ok(PartSteps { store, lists })
}

/// A derivation of a task that was carried through stages, from refutations of the tasks that it became, in order. For each step of
/// a refutation it has a step with the same sequent.
///
/// Only want of memory refuses.
pub fn lift(
    alloc: Global,
    store: Store,
    stages: &[Transformation],
    carried: TaskLevels,
    parts: Vec<Seq<Step>>,
) -> Result<Derived, AllocError>
    requires carried { IsCarried (map equation_of stages.now) store (carried_from store carried)
        carried.levels.items carried.tasks.items }
    requires parts_held { PartsHeld store parts.items }
    requires close { PartsClose (tasks_at store carried.tasks.items) (parts_at store parts.items) }
    ensures { IfOk result (IsDerived store (carried_from store carried)
        (parts_at store parts.items)) }
{
    let lifted = lift_levels(alloc, store, stages, carried, parts)?;
    let PartSteps { store, lists } = lifted;
    let mut lists = lists;
    let steps = lists.remove(0);
    Ok(Derived { store, steps })
}
