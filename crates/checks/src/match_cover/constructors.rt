// The constructors of a type symbol: the entries of a signature whose result it is, at their own type variables.
// They depend on tasks; the cover of patterns depends on them.
ghost use Rattle.std.specs.Prelude.{◌≡◌, ℕ, ◌+◌, ◌<◌, ◌≤◌, ◌↔◌, IsTrue, Some, ◌++◌, All, Contains, IfOk, IfSome, OnOk};
ghost use Rattle.std.specs.Option.{option_map};
ghost use Rattle.trees.specs.Tree.{Leaf, HEnd, HTyVar};
ghost use Rattle.trees.specs.Node.{tree_at, Holds};
ghost use Rattle.tasks.specs.Equations.{cells, type_variables};
ghost use Rattle.tasks.specs.Meaning.{symbol_at, symbols_at, SymbolHeld};
ghost use Rattle.tasks.specs.Valid.{own_type};
ghost use Rattle.checks.specs.match_cover.Shapes.{IsConstructorEntryOf};
ghost use Rattle.checks.specs.match_cover.Tables.{cell, one_if};

use std::alloc::{AllocError, Global};
use tasks::{Signature, SymbolInfo, SymbolKind};
use trees::store::Store;
use trees::{Node, TermId};

// Whether a list is empty.
fn is_end(store: &Store, list: TermId) -> bool
    requires { Holds store.now list }
    ensures { IsTrue result ↔ (tree_at store.now list ≡ Leaf HEnd) }
{
    matches!(store.node(list), Node::End)
}

// The first member of a list and the others.
fn cell(store: &Store, list: TermId) -> Option<(TermId, TermId)>
    requires { Holds store.now list }
    ensures tree { option_map (λ q. (tree_at store.now q.0, tree_at store.now q.1)) result
        ≡ cell (tree_at store.now list) }
    ensures held { IfSome result
        (λ q. Holds store.now q.0 × (Holds store.now q.1 × (q.1.0 < list.0))) }
{
    match store.node(list) {
        Node::Cell(first, rest) => Some((first, rest)),
        _ => None,
    }
}

// Whether a type is the type variable of a number.
fn is_variable(store: &Store, ty: TermId, number: usize) -> bool
    requires { Holds store.now ty }
    ensures { IsTrue result ↔ (tree_at store.now ty ≡ Leaf (HTyVar number)) }
{
    match store.node(ty) {
        Node::TyVar(found) => found == number,
        _ => false,
    }
}

// Whether a list has so many type variables, in order from a number on, and nothing else.
#[tactic(auto, using(crate::proofs::match_cover::Tables::none_variables, crate::proofs::match_cover::Tables::some_variables, crate::proofs::match_cover::Tables::no_variables))]
fn are_variables(store: &Store, list: TermId, from: usize, count: usize) -> bool
    requires held { Holds store.now list }
    requires fits { from + count ≤ usize.MAX }
    ensures { IsTrue result ↔ (tree_at store.now list ≡ cells (type_variables from count)) }
{
    if count == 0 {
        return is_end(store, list);
    }
    match cell(store, list) {
        Some((first, rest)) => {
            is_variable(store, first, from) && are_variables(store, rest, from + 1, count - 1)
        }
        None => false,
    }
}

/// Whether a list has a symbol's own type variables in order, so many, and nothing else.
pub fn are_own_variables(store: &Store, list: TermId, vars: usize) -> bool
    requires { Holds store.now list }
    ensures { IsTrue result ↔ (tree_at store.now list ≡ cells (type_variables 0 vars)) }
{
    are_variables(store, list, 0, vars)
}

// Whether a type is a symbol at so many type variables of its own.
fn is_own_type(store: &Store, ty: TermId, symbol: usize, vars: usize) -> bool
    requires { Holds store.now ty }
    ensures { IsTrue result ↔ (tree_at store.now ty ≡ own_type symbol vars) }
{
    match store.node(ty) {
        Node::TyApp(found, arguments) => {
            found == symbol && are_own_variables(store, arguments, vars)
        }
        _ => false,
    }
}

// Whether an entry is a constructor of a type symbol.
fn is_constructor_of(store: &Store, sig: &Signature, symbol: usize, entry: usize) -> bool
    requires { All (SymbolHeld store.now) sig.now.symbols }
    ensures { IsTrue result ↔ IsConstructorEntryOf (symbols_at store.now sig.now.symbols) symbol
        entry }
{
    match sig.symbols.get(entry) {
        Some(info) => match info.result {
            Some(ty) => info.kind == SymbolKind::Constructor
                && is_own_type(store, ty, symbol, info.vars),
            None => false,
        },
        None => false,
    }
}

// A number after others, where a test is passed.
fn push_if(yes: bool, number: usize, out: &mut Vec<usize>) -> Result<(), AllocError>
    ensures { OnOk result (out.new.items ≡ out.old.items ++ one_if yes number) }
{
    if yes {
        out.push(number)?;
    }
    Ok(())
}

// The constructors of a type symbol, in order.
pub(crate) fn constructors_of(
    alloc: Global,
    store: &Store,
    sig: &Signature,
    symbol: usize,
) -> Result<Vec<usize>, AllocError>
    requires { All (SymbolHeld store.now) sig.now.symbols }
    ensures { IfOk result (λ v. (k : ℕ)
        → Contains v.items k ↔ IsConstructorEntryOf (symbols_at store.now sig.now.symbols) symbol
        k) }
{
    let mut found = Vec::new(alloc);
    for entry in 0..sig.symbols.len() {
        let yes = is_constructor_of(store, sig, symbol, entry);
        push_if(yes, entry, &mut found)?;
    }
    Ok(found)
}
