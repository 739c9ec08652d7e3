// The types that are at the type variables of a proposition, found along an instance of it.
// It depends on the store; the evidence cites old propositions at them.
ghost use Rattle.std.specs.Prelude.{◌≡◌, set, IfOk};
ghost use Rattle.trees.specs.Node.{tree_at, trees_at, Holds};
ghost use Rattle.trees.specs.binders.Visits.{HoldTypes};
ghost use Rattle.tr_discriminate.specs.Found.{type_noted, tree_noted, types_found, ints};

use std::alloc::{AllocError, Global};
use tasks::{Node, Parts, Sort, Store, TermId};

// Puts a type at a place, where there is one.
fn put_type(types: &mut Vec<TermId>, number: usize, e: TermId)
    ensures { types.new.items ≡ set types.old.items number e }
{
    if number < types.len() {
        types[number] = e;
    }
}

// Notes a type at a type variable, by its number.
fn note_type(store: &Store, number: usize, e: TermId, types: &mut Vec<TermId>)
    requires e_held { Holds store.now e }
    requires types { HoldTypes store.now types.old.items }
    ensures types { HoldTypes store.now types.new.items }
    ensures found { trees_at store.now types.new.items
        ≡ type_noted number (tree_at store.now e) (trees_at store.now types.old.items) }
{
    match store.sort(e) {
        Sort::Kind => put_type(types, number, e),
        _ => {}
    }
}

// The same where a tree is a type variable.
fn note_leaf(store: &Store, a: TermId, e: TermId, types: &mut Vec<TermId>)
    requires a_held { Holds store.now a }
    requires e_held { Holds store.now e }
    requires types { HoldTypes store.now types.old.items }
    ensures types { HoldTypes store.now types.new.items }
    ensures found { trees_at store.now types.new.items
        ≡ tree_noted (tree_at store.now a) (tree_at store.now e)
        (trees_at store.now types.old.items) }
{
    match store.node(a) {
        Node::TyVar(number) => note_type(store, number, e, types),
        _ => {}
    }
}

// Notes the types that are at the type variables of a tree, along another.
fn find_types(store: &Store, a: TermId, e: TermId, types: &mut Vec<TermId>)
    requires a_held { Holds store.now a }
    requires e_held { Holds store.now e }
    requires types { HoldTypes store.now types.old.items }
    ensures types { HoldTypes store.now types.new.items }
    ensures found { trees_at store.now types.new.items ≡ types_found (tree_at store.now a)
        (tree_at store.now e) (trees_at store.now types.old.items) }
{
    let above = store.above_type_variables(a);
    if above == 0 {
        return;
    }
    match (store.node(a).parts(), store.node(e).parts()) {
        (Parts::None, _) => note_leaf(store, a, e, types),
        (Parts::One(b), Parts::One(x)) => find_types(store, b, x, types),
        (Parts::Two(b, c), Parts::Two(x, y)) => {
            find_types(store, b, x, types);
            find_types(store, c, y, types);
        }
        (Parts::Three(b, c, d), Parts::Three(x, y, z)) => {
            find_types(store, b, x, types);
            find_types(store, c, y, types);
            find_types(store, d, z, types);
        }
        _ => {}
    }
}

// The type `int`, so many times.
fn ints(alloc: Global, store: &Store, many: usize) -> Result<Vec<TermId>, AllocError>
    ensures held { IfOk result (λ v. HoldTypes store.now v.items) }
    ensures trees { IfOk result (λ v. trees_at store.now v.items ≡ ints many) }
{
    let int = store.int_type();
    let mut types = Vec::new(alloc);
    for i in 0..many {
        types.push(int)?;
    }
    Ok(types)
}

/// As many types as a proposition's declaration counts type variables: those that are at them in an instance of it, and `int` for each
/// other one.
pub(crate) fn types_along(
    alloc: Global,
    store: &Store,
    vars: usize,
    a: TermId,
    e: TermId,
) -> Result<Vec<TermId>, AllocError>
    requires a_held { Holds store.now a }
    requires e_held { Holds store.now e }
    ensures held { IfOk result (λ v. HoldTypes store.now v.items) }
    ensures trees { IfOk result (λ v. trees_at store.now v.items ≡ types_found
        (tree_at store.now a) (tree_at store.now e) (ints vars)) }
{
    let mut types = ints(alloc, store, vars)?;
    find_types(store, a, e, &mut types);
    Ok(types)
}
