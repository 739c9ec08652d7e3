// Whether a step is right.
// It depends on the rows of rules that put a term in, and on the kernel's test for all others; a reader of steps depends on it.
ghost use Rattle.std.specs.Prelude.{◌≡◌, ◌↔◌, ◌<◌, [], length, All, IsTrue, IfOk};
ghost use Rattle.tasks.specs.trees.Node.{Holds, Grows};
ghost use Rattle.tasks.specs.trees.Facts.{Each};
ghost use Rattle.tasks.specs.Valid.{IsGroundFormula};
ghost use Rattle.tasks.specs.Meaning.{task_at};
ghost use Rattle.tasks.specs.Looking.{LookupHeld};
ghost use Rattle.rules.specs.Trees.{rule_trees};
ghost use Rattle.rules.specs.Meaning.{rule_at, types_in, step_at, steps_at, RuleHeld, StepHeld, StepsHeld};
ghost use Rattle.kernel.specs.Right.{IsGroundExpression, IsRight};
ghost use Rattle.kernel.specs.Open.{OpenIn, IsOpen, StepIsOpen};
ghost use Rattle.step_reading.specs.quick_steps.Places.{task_here, sequent_here};

use crate::quick_steps::place::Place;
use crate::quick_steps::ready::{are_earlier, are_sentences, is_quick};
use crate::quick_steps::rows::told_row;
use kernel::right_typed_step;
use rules::{Rule, Step};
use std::alloc::{AllocError, Global};
use tasks::{Lookup, Store};

// Whether a rule has a quick row, and what every rule asks of a step holds.
fn is_ready(store: &Store, place: &Place<'_>, rule: &Rule) -> bool
    requires rule { RuleHeld store.now rule.now }
    requires sequent { All (Holds store.now) place.now.sequent.now }
    requires open { All (IsOpen (task_here store.now place.now) store.now) place.now.sequent.now }
    requires trees { Each (OpenIn (task_here store.now place.now))
        (rule_trees (rule_at store.now rule.now)) }
    ensures formulas { IsTrue result → All (IsGroundFormula (task_here store.now place.now))
        (sequent_here store.now place.now) }
    ensures trees { IsTrue result → Each (IsGroundExpression (task_here store.now place.now))
        (rule_trees (rule_at store.now rule.now)) }
    ensures types { IsTrue result → types_in rule.now ≡ [] }
    ensures earlier { IsTrue result → All (λ k. k < length place.now.before.now)
        place.now.premises.now }
{
    is_quick(store, place.look.task, rule)
        && are_sentences(store, place.look.task, place.sequent)
        && are_earlier(place.premises, place.before.len())
}

/// Whether a step is right for a task, over the steps before it, where its trees are known to be typed as far as they go. Only
/// want of memory refuses.
pub fn is_right_step(
    alloc: Global,
    store: &mut Store,
    look: &Lookup<'_>,
    before: &[Step],
    step: &Step,
) -> Result<bool, AllocError>
    requires look_held { LookupHeld store.old look.now }
    requires before_held { StepsHeld store.old before.now }
    requires step_held { StepHeld store.old step.now }
    requires typed { StepIsOpen (task_at store.old look.now.task.now) store.old step.now }
    ensures right { IfOk result (λ b. IsTrue b ↔ IsRight (task_at store.old look.now.task.now)
        (steps_at store.old before.now) (step_at store.old step.now)) }
    ensures grows { Grows store.old store.new }
{
    let sequent = step.sequent.as_slice();
    let premises = step.premises.as_slice();
    let place = Place {
        look,
        sequent,
        before,
        premises,
    };
    if !is_ready(store, &place, &step.rule) {
        return Ok(right_typed_step(store, look, before, step));
    }
    match told_row(alloc, store, &place, &step.rule)? {
        Some(told) => Ok(told),
        None => Ok(right_typed_step(store, look, before, step)),
    }
}
