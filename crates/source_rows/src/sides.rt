// The side conditions of what a declaration becomes, as text: what its matches leave, and the first fault.
ghost use Rattle.std.specs.Prelude.{◌∷◌, [], All, IsTrue, IfSome};
ghost use Rattle.tasks.specs.trees.Node.{Holds, tree_at};
ghost use Rattle.tasks.specs.Meaning.{symbols_at, trees_at, SymbolHeld, DeclHeld};
ghost use Rattle.theories.specs.checks.match_cover.Shapes.{IsPattern, HaveType};
ghost use Rattle.theories.specs.side_conditions.Sides.{IsMatch};

use elab_declarations::Elaborated;
use elab_groups::parts::MatchAt;
use row_texts::put_numbered;
use std::alloc::{AllocError, Global};
use tasks::typed_trees::{Vocabulary, is_typed_over};
use tasks::{Signature, Sort, Store, TermId};
use theories::side_conditions::{SideFault, check_sides};
use theories::{CheckFault, ValueShape, cover};

// Whether a tree is a well-typed pattern of a type.
fn is_pattern(store: &Store, sig: &Signature, ty: TermId, id: TermId) -> bool
    requires ty { Holds store.now ty }
    requires symbols { All (SymbolHeld store.now) sig.now.symbols }
    ensures held { IsTrue result → Holds store.now id }
    ensures is { IsTrue result → IsPattern (symbols_at store.now sig.now.symbols)
        (tree_at store.now id) }
    ensures has { IsTrue result → HaveType (tree_at store.now id ∷ []) (tree_at store.now ty) }
{
    if !store.holds(id) {
        return false;
    }
    if store.sort(id) != Sort::Pattern {
        return false;
    }
    match store.ty(id) {
        Some(known) => {
            store.same(known, ty) && is_typed_over(store, &Vocabulary::OfSignature(sig), id)
        }
        None => false,
    }
}

// Whether trees are well-typed patterns of a type.
fn are_patterns(store: &Store, sig: &Signature, ty: TermId, ids: &[TermId]) -> bool
    requires ty { Holds store.now ty }
    requires symbols { All (SymbolHeld store.now) sig.now.symbols }
    ensures held { IsTrue result → All (Holds store.now) ids.now }
    ensures are { IsTrue result → All (IsPattern (symbols_at store.now sig.now.symbols))
        (trees_at store.now ids.now) }
    ensures have { IsTrue result → HaveType (trees_at store.now ids.now) (tree_at store.now ty) }
{
    match ids.split_first() {
        Some((first, rest)) => {
            is_pattern(store, sig, ty, *first) && are_patterns(store, sig, ty, rest)
        }
        None => true,
    }
}

// The type of a match's first pattern.
fn type_of(store: &Store, found: &MatchAt) -> Option<TermId>
    ensures { IfSome result (Holds store.now) }
{
    let first = found.patterns.as_slice().first()?;
    if store.holds(*first) {
        store.ty(*first)
    } else {
        None
    }
}

// Whether the patterns of a match are well typed and of one type.
fn is_match(store: &Store, sig: &Signature, found: &MatchAt) -> bool
    requires symbols { All (SymbolHeld store.now) sig.now.symbols }
    ensures { IsTrue result → IsMatch store.now (symbols_at store.now sig.now.symbols) found.now }
{
    match type_of(store, found) {
        Some(ty) => are_patterns(store, sig, ty, found.patterns.as_slice()),
        None => false,
    }
}

fn are_matches(store: &Store, sig: &Signature, matches: &[MatchAt]) -> bool
    requires symbols { All (SymbolHeld store.now) sig.now.symbols }
    ensures { IsTrue result → All (IsMatch store.now (symbols_at store.now sig.now.symbols))
        matches.now }
{
    match matches.split_first() {
        Some((first, rest)) => is_match(store, sig, first) && are_matches(store, sig, rest),
        None => true,
    }
}

// A shape: its constructor before its fields, `_` where it isn't known.
fn put_shape(alloc: Global, text: &mut String, shape: &ValueShape) -> Result<(), AllocError> {
    match shape.con {
        Some(con) => put_numbered(alloc, text, " ", con)?,
        None => text.push_str(" _")?,
    }
    for part in shape.parts.as_slice() {
        put_shape(alloc, text, part)?;
    }
    Ok(())
}

// The token of a match, and the shape that it leaves, or that it leaves one.
fn put_cover(
    alloc: Global,
    text: &mut String,
    store: &Store,
    sig: &Signature,
    found: &MatchAt,
    shapes: bool,
) -> Result<(), AllocError>
    requires symbols { All (SymbolHeld store.now) sig.now.symbols }
{
    put_numbered(alloc, text, "|", found.token)?;
    if !is_match(store, sig, found) {
        return text.push_str(" not typed");
    }
    match cover(alloc, store, sig, found.patterns.as_slice())? {
        Some(shape) => {
            if shapes {
                put_shape(alloc, text, &shape)
            } else {
                text.push_str(" open")
            }
        }
        None => Ok(()),
    }
}

/// The matches of a declaration by their tokens, each with the shape that it leaves, or with whether it leaves one.
pub(crate) fn put_covers(
    alloc: Global,
    text: &mut String,
    store: &Store,
    sig: &Signature,
    matches: &[MatchAt],
    shapes: bool,
) -> Result<(), AllocError>
    requires symbols { All (SymbolHeld store.now) sig.now.symbols }
{
    for found in matches {
        put_cover(alloc, text, store, sig, found, shapes)?;
    }
    Ok(())
}

fn put_check_fault(alloc: Global, text: &mut String, fault: CheckFault) -> Result<(), AllocError> {
    match fault {
        CheckFault::Memory => text.push_str("Memory"),
        CheckFault::BadClause { clause } => put_numbered(alloc, text, "BadClause ", clause),
        CheckFault::NotPositive { clause } => put_numbered(alloc, text, "NotPositive ", clause),
        CheckFault::NotStructural => text.push_str("NotStructural"),
        CheckFault::GroupTooWide => text.push_str("GroupTooWide"),
        CheckFault::Uninhabited => text.push_str("Uninhabited"),
    }
}

/// The first fault of the side conditions of a declaration, or `right`.
pub(crate) fn put_sides(
    alloc: Global,
    text: &mut String,
    store: &Store,
    sig: &Signature,
    made: &Elaborated,
) -> Result<(), AllocError>
    requires symbols { All (SymbolHeld store.now) sig.now.symbols }
    requires decls { All (DeclHeld store.now) made.now.decls }
{
    let matches = made.matches.as_slice();
    if !are_matches(store, sig, matches) {
        return text.push_str("not typed");
    }
    match check_sides(alloc, store, sig, matches, made.decls.as_slice()) {
        Ok(()) => text.push_str("right"),
        Err(SideFault::Memory) => text.push_str("Memory"),
        Err(SideFault::NotExhaustive { token }) => {
            put_numbered(alloc, text, "NotExhaustive ", token)
        }
        Err(SideFault::Check(fault)) => put_check_fault(alloc, text, fault),
    }
}
