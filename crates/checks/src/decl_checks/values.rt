// Finite values of algebraic types: the types of a group that have one are found one by one.
// They depend on the store; the check of a declaration depends on them.
ghost use Rattle.std.specs.Prelude.{◌≡◌, ◌↔◌, ◌++◌, ◌<◌, IsTrue, All, Contains, IfOk, OnOk, MatchOption};
ghost use Rattle.trees.specs.Node.{tree_at, Holds};
ghost use Rattle.tasks.specs.Meaning.{trees_at, cons_at, algebraics_at, ConHeld, AlgebraicHeld};
ghost use Rattle.checks.specs.decl_checks.Values.{type_symbols, is_member, HasValue, HaveValues, SomeHasValues, IsClosedOver, AreInhabited, NextValued};

use crate::decl_checks::clauses::is_among;
use std::alloc::{AllocError, Global};
use tasks::{Alg, Con};
use trees::store::Store;
use trees::{Node, TermId};

// The symbols of types, after others.
fn push_type_symbols(store: &Store, types: &[Alg], out: &mut Vec<usize>) -> Result<(), AllocError>
    ensures { OnOk result (out.new.items
        ≡ out.old.items ++ type_symbols (algebraics_at store.now types.now)) }
{
    match types.split_first() {
        Some((first, rest)) => {
            out.push(first.symbol)?;
            push_type_symbols(store, rest, out)
        }
        None => Ok(()),
    }
}

// Whether a type has a value where these types of a group are known to have one.
fn has_value(store: &Store, group: &[usize], known: &[usize], ty: TermId) -> bool
    requires { Holds store.now ty }
    ensures { IsTrue result ↔ HasValue group.now (is_member known.now) (tree_at store.now ty) }
{
    match store.node(ty) {
        Node::TyApp(symbol, _) => !is_among(group, symbol) || is_among(known, symbol),
        _ => true,
    }
}

// Whether each of these types has a value.
fn have_values(store: &Store, group: &[usize], known: &[usize], types: &[TermId]) -> bool
    requires { All (Holds store.now) types.now }
    ensures { IsTrue result
        ↔ HaveValues group.now (is_member known.now) (trees_at store.now types.now) }
{
    match types.split_first() {
        Some((first, rest)) => {
            has_value(store, group, known, *first) && have_values(store, group, known, rest)
        }
        None => true,
    }
}

// Whether a constructor has fields that all have a value.
fn some_has_values(store: &Store, group: &[usize], known: &[usize], cons: &[Con]) -> bool
    requires { All (ConHeld store.now) cons.now }
    ensures { IsTrue result
        ↔ SomeHasValues group.now (is_member known.now) (cons_at store.now cons.now) }
{
    match cons.split_first() {
        Some((first, rest)) => {
            have_values(store, group, known, first.fields.as_slice())
                || some_has_values(store, group, known, rest)
        }
        None => false,
    }
}

// A type that has a value and isn't known to have one.
fn next_valued(store: &Store, group: &[usize], known: &[usize], types: &[Alg]) -> Option<usize>
    requires { All (AlgebraicHeld store.now) types.now }
    ensures { MatchOption result
        (IsClosedOver group.now (algebraics_at store.now types.now) (is_member known.now))
        (NextValued group.now known.now (algebraics_at store.now types.now)) }
{
    match types.split_first() {
        Some((first, rest)) => {
            let built = some_has_values(store, group, known, first.cons.as_slice());
            if built && !is_among(known, first.symbol) {
                Some(first.symbol)
            } else {
                next_valued(store, group, known, rest)
            }
        }
        None => None,
    }
}

// Whether each of these numbers is in a list.
fn are_among(numbers: &[usize], list: &[usize]) -> bool
    ensures { IsTrue result ↔ All (Contains list.now) numbers.now }
{
    match numbers.split_first() {
        Some((first, rest)) => is_among(list, *first) && are_among(rest, list),
        None => true,
    }
}

/// Whether each type of a group has a finite value. Only want of memory refuses.
pub(crate) fn are_inhabited(alloc: Global, store: &Store, types: &[Alg]) -> Result<bool, AllocError>
    requires { All (AlgebraicHeld store.now) types.now }
    ensures { IfOk result (λ b. IsTrue b ↔ AreInhabited (algebraics_at store.now types.now)) }
{
    let mut group = Vec::new(alloc);
    push_type_symbols(store, types, &mut group)?;
    let mut known = Vec::new(alloc);
    while let Some(symbol) = next_valued(store, group.as_slice(), known.as_slice(), types) {
        known.push(symbol)?;
    }
    Ok(are_among(group.as_slice(), known.as_slice()))
}
