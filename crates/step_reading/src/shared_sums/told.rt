// Whether a weighted sum can't hold.
// It depends on the formulas that may be in it, on what is known of terms, and on the sums that are pending.
ghost use Rattle.std.specs.Prelude.{◌≡◌, ◌↔◌, ℤ, ◌+ℤ◌, ◌^◌, ◌-◌, min, map, List, All, Some, IsTrue, IfOk, OnOk, IfSome};
ghost use Rattle.std.specs.Option.{option_map};
ghost use Rattle.trees.specs.Tree.{Tree};
ghost use Rattle.trees.specs.Node.{tree_at, Holds};
ghost use Rattle.linear_leaf.specs.Linear.{heft, weight_of, weight, part, total, ClosesLinear};
ghost use Rattle.step_reading.specs.shared_sums.Known.{AreKnownTerms};
ghost use Rattle.step_reading.specs.shared_sums.Pending.{HaveTerms, value_at, IsSum};
ghost use Rattle.step_reading.specs.shared_sums.Uses.{bounded_of, IsBoundHeld, sequent_of_leaf, IsSequentHeld};

use crate::shared_sums::known::{Table, known_of, negate};
use crate::shared_sums::pending::{Pending, all_cancel, nothing, put_constant, put_term};
use crate::shared_sums::uses::{Bound, Leaf, are_uses, bounded_at};
use linear_leaf::closes_linear;
use std::alloc::{AllocError, Global};
use std::collections::HashMap;
use trees::store::Store;
use trees::{Ints, TermId};

// The weight of a formula, or the greatest number.
#[tactic(auto, using(linear_leaf::proofs::Integers::min_add))]
fn weigh_both(x: &Leaf<'_>, table: &mut Table, d: Bound) -> Result<u128, AllocError>
    requires held { IsBoundHeld x.now.store.now d }
    requires table { AreKnownTerms x.now.ints.now x.now.store.now table.old }
    ensures weight { IfOk result (λ w. w ≡ min (heft x.now.ints.now (bounded_of x.now.store.now d))
        (2 ^ 128 - 1)) }
    ensures table { OnOk result (AreKnownTerms x.now.ints.now x.now.store.now table.new) }
{
    let left = known_of(x.store, x.ints, table, d.left)?;
    let right = known_of(x.store, x.ints, table, d.right)?;
    Ok(left.weight.saturating_add(right.weight).saturating_add(2))
}

// The weight of a formula with a multiplier, or the greatest number.
#[tactic(auto, using(linear_leaf::proofs::Integers::min_times))]
fn weigh_part(
    x: &Leaf<'_>,
    table: &mut Table,
    d: Bound,
    multiplier: i128,
) -> Result<u128, AllocError>
    requires held { IsBoundHeld x.now.store.now d }
    requires table { AreKnownTerms x.now.ints.now x.now.store.now table.old }
    ensures weight { IfOk result (λ w. w ≡ min (weight_of x.now.ints.now multiplier
        (Some (bounded_of x.now.store.now d))) (2 ^ 128 - 1)) }
    ensures table { OnOk result (AreKnownTerms x.now.ints.now x.now.store.now table.new) }
{
    let both = weigh_both(x, table, d)?;
    Ok(multiplier.unsigned_abs().saturating_mul(both))
}

// The weight of the sum, or the greatest number.
fn weigh_all(x: &Leaf<'_>, table: &mut Table, uses: &[(usize, i128)]) -> Result<u128, AllocError>
    requires held { IsSequentHeld x.now }
    requires table { AreKnownTerms x.now.ints.now x.now.store.now table.old }
    ensures weight { IfOk result (λ w. w ≡ min
        (weight x.now.ints.now (sequent_of_leaf x.now) uses.now) (2 ^ 128 - 1)) }
    ensures table { OnOk result (AreKnownTerms x.now.ints.now x.now.store.now table.new) }
{
    let Some((first, more)) = uses.split_first() else {
        return Ok(0);
    };
    match bounded_at(x, first.0) {
        Some(d) => {
            let one = weigh_part(x, table, d, first.1)?;
            let others = weigh_all(x, table, more)?;
            Ok(one.saturating_add(others))
        }
        None => weigh_all(x, table, more),
    }
}

// Adds a formula's share of the sum.
fn add_part(
    x: &Leaf<'_>,
    table: &mut Table,
    pending: &mut Pending,
    d: Bound,
    multiplier: i128,
) -> Result<(), AllocError>
    requires held { IsBoundHeld x.now.store.now d }
    requires table { AreKnownTerms x.now.ints.now x.now.store.now table.old }
    requires terms { HaveTerms x.now.ints.now x.now.store.now pending.old.multiples.entries }
    ensures table { OnOk result (AreKnownTerms x.now.ints.now x.now.store.now table.new) }
    ensures terms { OnOk result (HaveTerms x.now.ints.now x.now.store.now
        pending.new.multiples.entries) }
    ensures sum { OnOk result ((v : Tree → ℤ) (n : ℤ)
        → IsSum (value_at x.now.ints.now x.now.store.now v) pending.old n
        → IsSum (value_at x.now.ints.now x.now.store.now v) pending.new
        (n +ℤ part x.now.ints.now v multiplier (Some (bounded_of x.now.store.now d)))) }
{
    put_term(x.store, x.ints, table, pending, d.left, Some(multiplier))?;
    put_term(
        x.store,
        x.ints,
        table,
        pending,
        d.right,
        negate(Some(multiplier)),
    )?;
    if d.strict {
        put_constant(pending, Some(multiplier));
    }
    Ok(())
}

// Adds a formula's share of the sum, and nothing where there is none.
fn add_bounded(
    x: &Leaf<'_>,
    table: &mut Table,
    pending: &mut Pending,
    d: Option<Bound>,
    multiplier: i128,
) -> Result<(), AllocError>
    requires held { IfSome d (IsBoundHeld x.now.store.now) }
    requires table { AreKnownTerms x.now.ints.now x.now.store.now table.old }
    requires terms { HaveTerms x.now.ints.now x.now.store.now pending.old.multiples.entries }
    ensures table { OnOk result (AreKnownTerms x.now.ints.now x.now.store.now table.new) }
    ensures terms { OnOk result (HaveTerms x.now.ints.now x.now.store.now
        pending.new.multiples.entries) }
    ensures sum { OnOk result ((v : Tree → ℤ) (n : ℤ)
        → IsSum (value_at x.now.ints.now x.now.store.now v) pending.old n
        → IsSum (value_at x.now.ints.now x.now.store.now v) pending.new
        (n +ℤ part x.now.ints.now v multiplier (option_map (bounded_of x.now.store.now) d))) }
{
    match d {
        Some(bound) => add_part(x, table, pending, bound, multiplier),
        None => Ok(()),
    }
}

// Adds the weighted sum.
fn add_all(
    x: &Leaf<'_>,
    table: &mut Table,
    pending: &mut Pending,
    uses: &[(usize, i128)],
) -> Result<(), AllocError>
    requires held { IsSequentHeld x.now }
    requires table { AreKnownTerms x.now.ints.now x.now.store.now table.old }
    requires terms { HaveTerms x.now.ints.now x.now.store.now pending.old.multiples.entries }
    ensures table { OnOk result (AreKnownTerms x.now.ints.now x.now.store.now table.new) }
    ensures terms { OnOk result (HaveTerms x.now.ints.now x.now.store.now
        pending.new.multiples.entries) }
    ensures sum { OnOk result ((v : Tree → ℤ) (n : ℤ)
        → IsSum (value_at x.now.ints.now x.now.store.now v) pending.old n
        → IsSum (value_at x.now.ints.now x.now.store.now v) pending.new
        (n +ℤ total x.now.ints.now (sequent_of_leaf x.now) v uses.now)) }
{
    let Some((first, more)) = uses.split_first() else {
        return Ok(());
    };
    add_bounded(x, table, pending, bounded_at(x, first.0), first.1)?;
    add_all(x, table, pending, more)?;
    Ok(())
}

/// Whether the formulas of a sequent at these places, each with a multiplier, can't all hold: their weighted sum has no atom left and a
/// constant above 0, and its weight is at most 2^126. Each term is visited once; only want of memory refuses.
pub fn is_closed_by(
    alloc: Global,
    store: &Store,
    ints: &Ints,
    sequent: &[TermId],
    uses: &[(usize, i128)],
) -> Result<bool, AllocError>
    requires { All (Holds store.now) sequent.now }
    ensures { IfOk result (λ b. IsTrue b ↔ ClosesLinear ints.now
        (map (tree_at store.now) sequent.now) uses.now) }
{
    let x = Leaf {
        store,
        ints,
        sequent,
    };
    if !are_uses(&x, uses) {
        return Ok(false);
    }
    let mut table = HashMap::new(alloc);
    if weigh_all(&x, &mut table, uses)? > 85070591730234615865843651857942052864 {
        return Ok(false);
    }
    let mut pending = nothing(alloc);
    add_all(&x, &mut table, &mut pending, uses)?;
    let cancels = all_cancel(store, ints, &mut table, &mut pending)?;
    let Some(constant) = pending.constant else {
        return Ok(closes_linear(store, ints, sequent, uses));
    };
    if !cancels {
        return Ok(false);
    }
    Ok(constant > 0)
}
