// The rows that take no formula apart or one alone: those that close a sequent, `notnot`, `cut` and `keep`.
// They depend on what premises add; the checker of a step depends on them.
ghost use Rattle.std.specs.Prelude.{◌≡◌, ◌↔◌, Some, slice_get, map, All, IsTrue};
ghost use Rattle.trees.specs.Node.{tree_at, Holds};
ghost use Rattle.tasks.specs.Meaning.{trees_at};
ghost use Rattle.rules.specs.Trees.{RFalse, RNotTrue, RClash, RIrrefl, RNotNot, RCut, RKeep};
ghost use Rattle.rules.specs.Meaning.{sequent_of, TriedHeld, RowOf};

use crate::apart::{equation_sides, negated_formula};
use crate::shape::Not;
use crate::tried::{Tried, adds_each, adds_none, adds_one, formula_at, premise};
use trees::{Node, Sort, TermId};

/// A formula that is `false`.
pub fn is_false(x: &Tried<'_>, i: usize) -> bool
    requires { TriedHeld x.now }
    ensures { IsTrue result ↔ RowOf x.now (RFalse i) }
{
    match formula_at(x, i) {
        Some(id) => match x.store.node(id) {
            Node::False => adds_none(x),
            _ => false,
        },
        None => false,
    }
}

/// A negation of `true`.
pub fn not_true(x: &Tried<'_>, i: usize) -> bool
    requires { TriedHeld x.now }
    ensures { IsTrue result ↔ RowOf x.now (RNotTrue i) }
{
    match negated_formula(x.store, formula_at(x, i)) {
        Some(id) => match x.store.node(id) {
            Node::True => adds_none(x),
            _ => false,
        },
        None => false,
    }
}

/// A formula, and its negation.
pub fn clash(x: &Tried<'_>, i: usize, j: usize) -> bool
    requires { TriedHeld x.now }
    ensures { IsTrue result ↔ RowOf x.now (RClash i j) }
{
    match (formula_at(x, i), negated_formula(x.store, formula_at(x, j))) {
        (Some(a), Some(b)) => x.store.same(a, b) && adds_none(x),
        _ => false,
    }
}

/// A term that doesn't equal itself.
pub fn irrefl(x: &Tried<'_>, i: usize) -> bool
    requires { TriedHeld x.now }
    ensures { IsTrue result ↔ RowOf x.now (RIrrefl i) }
{
    match equation_sides(x.store, negated_formula(x.store, formula_at(x, i))) {
        Some((a, b)) => x.store.same(a, b) && adds_none(x),
        None => false,
    }
}

/// A negation of a negation.
pub fn not_not(x: &Tried<'_>, i: usize) -> bool
    requires { TriedHeld x.now }
    ensures { IsTrue result ↔ RowOf x.now (RNotNot i) }
{
    match negated_formula(x.store, negated_formula(x.store, formula_at(x, i))) {
        Some(a) => adds_one(x, &a),
        None => false,
    }
}

/// A formula, or its negation.
pub fn cut(x: &Tried<'_>, formula: TermId) -> bool
    requires tried { TriedHeld x.now }
    requires held { Holds x.now.store.now formula }
    ensures { IsTrue result ↔ RowOf x.now (RCut (tree_at x.now.store.now formula)) }
{
    x.store.sort(formula) == Sort::Formula && adds_each(x, &formula, &Not(formula))
}

// Whether a formula is at a place.
fn is_at(x: &Tried<'_>, place: usize, id: TermId) -> bool
    requires tried { TriedHeld x.now }
    requires held { Holds x.now.store.now id }
    ensures { IsTrue result ↔ (Some (tree_at x.now.store.now id)
        ≡ slice_get (sequent_of x.now) place) }
{
    match formula_at(x, place) {
        Some(other) => x.store.same(id, other),
        None => false,
    }
}

// Whether a sequent is the formulas at these places.
fn are_kept(x: &Tried<'_>, places: &[usize], kept: &[TermId]) -> bool
    requires tried { TriedHeld x.now }
    requires held { All (Holds x.now.store.now) kept.now }
    ensures { IsTrue result ↔ (map Some (trees_at x.now.store.now kept.now)
        ≡ map (slice_get (sequent_of x.now)) places.now) }
{
    match (kept.split_first(), places.split_first()) {
        (Some((a, more)), Some((i, others))) => is_at(x, *i, *a) && are_kept(x, others, more),
        (None, None) => true,
        _ => false,
    }
}

/// The formulas at places.
pub fn keep(x: &Tried<'_>, places: &[usize]) -> bool
    requires { TriedHeld x.now }
    ensures { IsTrue result ↔ RowOf x.now (RKeep places.now) }
{
    x.premises.len() == 1 && are_kept(x, places, premise(x, 0))
}
