// The row of `linear`: each term of the sum is visited once.
// It depends on the shared sums; the rows of rules depend on it.
ghost use Rattle.std.specs.Prelude.{◌↔◌, IsTrue, IfOk};
ghost use Rattle.rules.specs.Trees.{RLinear};
ghost use Rattle.rules.specs.Rows.{DeclaresFour, DeclaresInts, IsRuleRow};
ghost use Rattle.step_reading.specs.quick_steps.Places.{task_here, sequent_here, premises_here, PlaceHeld};

use crate::quick_steps::place::{Place, adds_nothing};
use crate::shared_sums::is_closed_by;
use std::alloc::{AllocError, Global};
use tasks::{Ints, Store};

// Whether the task declares four symbols.
fn declares_four(store: &Store, place: &Place<'_>, a: usize, b: usize, c: usize, d: usize) -> bool
    requires { PlaceHeld store.now place.now }
    ensures { IsTrue result ↔ DeclaresFour (task_here store.now place.now) a b c d }
{
    place.look.declares(store, a)
        && place.look.declares(store, b)
        && place.look.declares(store, c)
        && place.look.declares(store, d)
}

// Whether the task declares the symbols of int.Int.
fn are_declared(store: &Store, place: &Place<'_>, ints: Ints) -> bool
    requires { PlaceHeld store.now place.now }
    ensures { IsTrue result ↔ DeclaresInts (task_here store.now place.now) ints }
{
    declares_four(store, place, ints.neg, ints.add, ints.sub, ints.mul)
        && declares_four(store, place, ints.lt, ints.le, ints.gt, ints.ge)
}

/// A sum of formulas that can't hold.
pub(crate) fn linear(
    alloc: Global,
    store: &Store,
    place: &Place<'_>,
    uses: &[(usize, i128)],
) -> Result<bool, AllocError>
    requires { PlaceHeld store.now place.now }
    ensures { IfOk result (λ b. IsTrue b ↔ IsRuleRow (task_here store.now place.now)
        (sequent_here store.now place.now) (RLinear uses.now)
        (premises_here store.now place.now)) }
{
    let Some(ints) = place.look.task.sig.ints else {
        return Ok(false);
    };
    if !are_declared(store, place, ints) || !adds_nothing(store, place) {
        return Ok(false);
    }
    let closed = is_closed_by(alloc, store, &ints, place.sequent, uses)?;
    Ok(closed)
}
