// Which definitions are inlined, by their bodies as they are written.
ghost use Rattle.std.specs.Prelude.{◌≡◌, ◌==◌, List, [], ℕ, IfOk};
ghost use Rattle.std.specs.List.{list_any};
ghost use Rattle.trees.specs.Node.{tree_at, Holds};
ghost use Rattle.inlining.specs.Inlining.{are_distinct_parameters, is_trivial};
ghost use Rattle.checks.specs.decl_checks.Structure.{bound_index};
ghost use Rattle.tr_inline.specs.full_bodies.Chosen.{AreTheSame, are_two_parameters, is_chosen};

use inlining::InlineMode;
use std::alloc::{AllocError, Global};
use trees::store::Store;
use trees::{Node, TermId};

// Whether a number is among others.
fn is_among(seen: &[usize], index: usize) -> bool
    ensures { result ≡ list_any (λ j. j == index) seen.now }
{
    match seen.split_first() {
        Some((first, rest)) => *first == index || is_among(rest, index),
        None => false,
    }
}

// The index of a parameter.
fn parameter(store: &Store, e: TermId) -> Option<usize>
    requires { Holds store.now e }
    ensures { result ≡ bound_index (tree_at store.now e) }
{
    match store.node(e) {
        Node::Bound(i, _) => Some(i),
        _ => None,
    }
}

// Whether the members of a list are parameters, none of which stands twice or was seen before.
fn are_distinct(store: &Store, list: TermId, seen: &mut Vec<usize>) -> Result<bool, AllocError>
    requires { Holds store.now list }
    ensures { IfOk result (λ b. (before : List ℕ) → AreTheSame before seen.old.items
        → b ≡ are_distinct_parameters before (tree_at store.now list)) }
{
    let Node::Cell(first, rest) = store.node(list) else {
        return Ok(true);
    };
    let Some(index) = parameter(store, first) else {
        return Ok(false);
    };
    if is_among(seen.as_slice(), index) {
        return Ok(false);
    }
    seen.push(index)?;
    are_distinct(store, rest, seen)
}

// The same, with none seen before.
fn are_distinct_in(alloc: Global, store: &Store, list: TermId) -> Result<bool, AllocError>
    requires { Holds store.now list }
    ensures { IfOk result (λ b. b ≡ are_distinct_parameters [] (tree_at store.now list)) }
{
    let mut seen = Vec::new(alloc);
    let distinct = are_distinct(store, list, &mut seen)?;
    Ok(distinct)
}

// Whether two trees are different parameters.
fn are_two_parameters(store: &Store, a: TermId, b: TermId) -> bool
    requires a_held { Holds store.now a }
    requires b_held { Holds store.now b }
    ensures { result ≡ are_two_parameters (tree_at store.now a) (tree_at store.now b) }
{
    let Some(i) = parameter(store, a) else {
        return false;
    };
    let Some(j) = parameter(store, b) else {
        return false;
    };
    i != j
}

// Whether a body is a parameter, an integer, or one symbol or `=` on distinct parameters.
fn is_trivial(alloc: Global, store: &Store, body: TermId) -> Result<bool, AllocError>
    requires { Holds store.now body }
    ensures { IfOk result (λ b. b ≡ is_trivial (tree_at store.now body)) }
{
    match store.node(body) {
        Node::Bound(_, _) => Ok(true),
        Node::Num(_) => Ok(true),
        Node::Fun(_, _, args, _) => are_distinct_in(alloc, store, args),
        Node::Pred(_, _, args) => are_distinct_in(alloc, store, args),
        Node::Eq(a, b) => Ok(are_two_parameters(store, a, b)),
        _ => Ok(false),
    }
}

/// Whether a definition with this body is inlined, if it isn't recursive.
pub(crate) fn is_chosen(
    alloc: Global,
    store: &Store,
    mode: InlineMode,
    body: TermId,
) -> Result<bool, AllocError>
    requires { Holds store.now body }
    ensures { IfOk result (λ b. b ≡ is_chosen mode (tree_at store.now body)) }
{
    match mode {
        InlineMode::Trivial => is_trivial(alloc, store, body),
        InlineMode::Goal => Ok(true),
        InlineMode::All => Ok(true),
    }
}
