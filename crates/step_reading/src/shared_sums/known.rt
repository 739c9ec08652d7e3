// What is known of a term as a sum: its weight, whether it has an atom, and its value where its atoms are 0. Each number is visited once.
// It depends on what a term is at its top; the sums that are pending depend on it.
ghost use Rattle.std.specs.Prelude.{◌≡◌, ℤ, ◌+ℤ◌, ◌*ℤ◌, neg_ℤ, IfOk, OnOk};
ghost use Rattle.trees.specs.Tree.{Tree};
ghost use Rattle.trees.specs.Node.{tree_at, Holds};
ghost use Rattle.linear_leaf.specs.Linear.{Sum, sum, negated_sum, constant_sum, atom, product_by, both_have, zeros, reading};
ghost use Rattle.step_reading.specs.shared_sums.Known.{IsInteger, TellsSum, IsKnown, AreKnownTerms};

use crate::shared_sums::summands::{Summand, top_of};
use std::alloc::AllocError;
use std::collections::HashMap;
use trees::store::Store;
use trees::{Ints, TermId};

// What is known of a term: its weight or the greatest number, and its value where its atoms are 0 and it fits.
#[derive(Clone, Copy)]
pub(crate) struct Known {
    pub weight: u128,
    pub has_atom: bool,
    pub value: Option<i128>,
}

// What is known of terms, by their numbers.
pub(crate) type Table = HashMap<usize, Known>;

/// A sum, where both numbers are there and it fits.
pub(crate) fn add(a: Option<i128>, b: Option<i128>) -> Option<i128>
    ensures { (x y : ℤ) → IsInteger x a → IsInteger y b → IsInteger (x +ℤ y) result }
{
    a?.checked_add(b?)
}

/// A product, where both numbers are there and it fits.
pub(crate) fn multiply(a: Option<i128>, b: Option<i128>) -> Option<i128>
    ensures { (x y : ℤ) → IsInteger x a → IsInteger y b → IsInteger (x *ℤ y) result }
{
    a?.checked_mul(b?)
}

/// The negation of a number that is there, where it fits.
pub(crate) fn negate(a: Option<i128>) -> Option<i128>
    ensures { (x : ℤ) → IsInteger x a → IsInteger (neg_ℤ x) result }
{
    a?.checked_neg()
}

fn number(n: i128) -> Known
    ensures { TellsSum (constant_sum n) result }
{
    Known {
        weight: n.unsigned_abs().max(1),
        has_atom: false,
        value: Some(n),
    }
}

fn of_an_atom() -> Known
    ensures { (e : Tree) → TellsSum (atom zeros e) result }
{
    Known {
        weight: 1,
        has_atom: true,
        value: Some(0),
    }
}

fn negated(x: Known) -> Known
    ensures { (a : Sum) → TellsSum a x → TellsSum (negated_sum a) result }
{
    Known {
        weight: x.weight,
        has_atom: x.has_atom,
        value: negate(x.value),
    }
}

#[tactic(auto, using(linear_leaf::proofs::Reading::any_append))]
fn plus(x: Known, y: Known) -> Known
    ensures { (a b : Sum) → TellsSum a x → TellsSum b y → TellsSum (sum a b) result }
{
    Known {
        weight: x.weight.saturating_add(y.weight),
        has_atom: x.has_atom || y.has_atom,
        value: add(x.value, y.value),
    }
}

#[tactic(auto, using(linear_leaf::proofs::Reading::any_append, linear_leaf::proofs::Integers::min_mul))]
fn times(x: Known, y: Known) -> Known
    ensures { (e : Tree) (a b : Sum) → TellsSum a x → TellsSum b y
        → TellsSum (product_by zeros (both_have a.atoms b.atoms) e a b) result }
{
    if x.has_atom && y.has_atom {
        of_an_atom()
    } else {
        Known {
            weight: x.weight.saturating_mul(y.weight),
            has_atom: x.has_atom || y.has_atom,
            value: multiply(x.value, y.value),
        }
    }
}

// What is known of a term. It is noted in the table.
#[cycle(knowing)]
pub(crate) fn known_of(
    store: &Store,
    ints: &Ints,
    table: &mut Table,
    e: TermId,
) -> Result<Known, AllocError>
    requires held { Holds store.now e }
    requires table { AreKnownTerms ints.now store.now table.old }
    ensures known { IfOk result (IsKnown ints.now store.now e.0) }
    ensures table { OnOk result (AreKnownTerms ints.now store.now table.new) }
{
    if let Some(x) = table.get(&e.0) {
        return Ok(*x);
    }
    let x = known_by_top(store, ints, table, e)?;
    table.insert(e.0, x)?;
    Ok(x)
}

// The same, by what the term is at its top.
#[cycle(knowing)]
fn known_by_top(
    store: &Store,
    ints: &Ints,
    table: &mut Table,
    e: TermId,
) -> Result<Known, AllocError>
    requires held { Holds store.now e }
    requires table { AreKnownTerms ints.now store.now table.old }
    ensures known { IfOk result (IsKnown ints.now store.now e.0) }
    ensures table { OnOk result (AreKnownTerms ints.now store.now table.new) }
{
    match top_of(store, ints, e) {
        Summand::Number(n) => Ok(number(n)),
        Summand::Negated(a) => {
            let x = known_of(store, ints, table, a)?;
            Ok(negated(x))
        }
        Summand::Plus(a, b) => {
            let x = known_of(store, ints, table, a)?;
            let y = known_of(store, ints, table, b)?;
            Ok(plus(x, y))
        }
        Summand::Minus(a, b) => {
            let x = known_of(store, ints, table, a)?;
            let y = known_of(store, ints, table, b)?;
            Ok(plus(x, negated(y)))
        }
        Summand::Times(a, b) => {
            let x = known_of(store, ints, table, a)?;
            let y = known_of(store, ints, table, b)?;
            Ok(times(x, y))
        }
        Summand::Atom => Ok(of_an_atom()),
    }
}
