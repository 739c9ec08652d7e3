// Which steps are right, and which steps derive a task.
// It depends on the table of rules; drafts, step files and the program depend on it.
ghost use Rattle.std.specs.Prelude.{◌≡◌, ◌↔◌, ◌<◌, length, take, All, IsTrue, IfSome, IfNone};
ghost use Rattle.trees.specs.Node.{Holds};
ghost use Rattle.tasks.specs.Task.{start};
ghost use Rattle.tasks.specs.Meaning.{trees_at, task_at, TaskHeld};
ghost use Rattle.tasks.specs.Looking.{LookupHeld};
ghost use Rattle.rules.specs.Trees.{step_or};
ghost use Rattle.rules.specs.Meaning.{step_at, steps_at, StepHeld, StepsHeld};
ghost use Rattle.kernel.specs.Right.{IsRight, Closes, IsWrongAt, last_starts};
ghost use Rattle.kernel.specs.Open.{StepIsOpen};

use crate::rows::row_holds;
use crate::typed::{are_sentences, are_types, names_right, step_is_open};
use rules::{Not, Step, Tried, is_wider};
use tasks::{Lookup, Task};
use trees::TermId;
use trees::store::Store;

// Whether the premises are earlier steps.
fn all_earlier(premises: &[usize], count: usize) -> bool
    ensures { IsTrue result ↔ All (λ k. k < count) premises.now }
{
    for k in premises {
        if *k >= count {
            return false;
        }
    }
    true
}

/// Whether a step is right for a task, over the steps before it, where its trees are known to be typed as far as they go.
#[tactic(auto, using(crate::proofs::Complete::each_closed, crate::proofs::Complete::types_named))]
pub fn right_typed_step(store: &Store, look: &Lookup<'_>, before: &[Step], step: &Step) -> bool
    requires look_held { LookupHeld store.now look.now }
    requires before_held { StepsHeld store.now before.now }
    requires step_held { StepHeld store.now step.now }
    requires typed { StepIsOpen (task_at store.now look.now.task.now) store.now step.now }
    ensures { IsTrue result ↔ IsRight (task_at store.now look.now.task.now)
        (steps_at store.now before.now) (step_at store.now step.now) }
{
    let task = look.task;
    let sequent = step.sequent.as_slice();
    let premises = step.premises.as_slice();
    if !are_sentences(store, task, sequent) {
        return false;
    }
    if !names_right(store, task, &step.rule) {
        return false;
    }
    if !are_types(store, task, step.rule.types()) {
        return false;
    }
    if !all_earlier(premises, before.len()) {
        return false;
    }
    let tried = Tried {
        store,
        look,
        sequent,
        before,
        premises,
    };
    row_holds(&tried, &step.rule)
}

/// Whether a step is right for a task, over the steps before it.
#[tactic(auto, using(crate::proofs::Complete::right_open))]
pub fn right_step(store: &Store, task: &Task, before: &[Step], step: &Step) -> bool
    requires task_held { TaskHeld store.now task.now }
    requires before_held { StepsHeld store.now before.now }
    requires step_held { StepHeld store.now step.now }
    ensures { IsTrue result ↔ IsRight (task_at store.now task.now) (steps_at store.now before.now)
        (step_at store.now step.now) }
{
    if !step_is_open(store, task, step) {
        return false;
    }
    let look = Lookup::without_index(task);
    right_typed_step(store, &look, before, step)
}

// Whether a step of a list is right.
fn right_at(store: &Store, task: &Task, steps: &[Step], i: usize) -> bool
    requires task_held { TaskHeld store.now task.now }
    requires steps_held { StepsHeld store.now steps.now }
    requires within { i < length steps.now }
    ensures { IsTrue result ↔ IsRight (task_at store.now task.now)
        (take i (steps_at store.now steps.now)) (step_or (steps_at store.now steps.now) i) }
{
    right_step(store, task, &steps[..i], &steps[i])
}

// Whether a sequent is a task's start.
fn is_start(store: &Store, task: &Task, sequent: &[TermId]) -> bool
    requires task_held { TaskHeld store.now task.now }
    requires sequent_held { All (Holds store.now) sequent.now }
    ensures { IsTrue result ↔ (trees_at store.now sequent.now
        ≡ start (task_at store.now task.now)) }
{
    is_wider(store, sequent, task.locals.as_slice(), &Not(task.goal))
}

/// Whether there is a last step and its sequent is the task's start. Right steps derive the task where this holds.
pub fn ends_in_start(store: &Store, task: &Task, steps: &[Step]) -> bool
    requires task_held { TaskHeld store.now task.now }
    requires steps_held { StepsHeld store.now steps.now }
    ensures { IsTrue result ↔ last_starts (task_at store.now task.now)
        (steps_at store.now steps.now) }
{
    if steps.is_empty() {
        return false;
    }
    is_start(store, task, steps[steps.len() - 1].sequent.as_slice())
}

/// The least step that isn't right, or the number of steps where all are right and the last one hasn't the
/// task's start or there is none.
pub fn first_wrong(store: &Store, task: &Task, steps: &[Step]) -> Option<usize>
    requires task_held { TaskHeld store.now task.now }
    requires steps_held { StepsHeld store.now steps.now }
    ensures none { IfNone result (Closes (task_at store.now task.now)
        (steps_at store.now steps.now)) }
    ensures some { IfSome result (IsWrongAt (task_at store.now task.now)
        (steps_at store.now steps.now)) }
{
    for i in 0..steps.len() {
        if !right_at(store, task, steps, i) {
            return Some(i);
        }
    }
    if ends_in_start(store, task, steps) {
        None
    } else {
        Some(steps.len())
    }
}

/// Whether steps derive a task.
pub fn closes(store: &Store, task: &Task, steps: &[Step]) -> bool
    requires task_held { TaskHeld store.now task.now }
    requires steps_held { StepsHeld store.now steps.now }
    ensures { IsTrue result ↔ Closes (task_at store.now task.now) (steps_at store.now steps.now) }
{
    first_wrong(store, task, steps).is_none()
}
