// The type that the bindings make of a type, and whether an unknown occurs in a type; each number is visited once.
// They depend on the bindings; solving and the determined unknowns depend on them.
ghost use Rattle.std.specs.Prelude.{◌≡◌, ◌<◌, Bool, true, false, Option, IfOk, OnOk};
ghost use Rattle.trees.specs.Node.{tree_at, Holds, Grows};
ghost use Rattle.open_types.specs.unify_types.Assigned.{assign, IsTypeOrTypes};
ghost use Rattle.open_types.specs.unify_types.Bound.{resolve, IsTriangular, bound_over, BindingsHeld, AreUnderSubstitution, has_sought, is_sought, AreClear};

use crate::unify_types::bindings::Bindings;
use std::alloc::AllocError;
use std::collections::{HashMap, HashSet};
use trees::store::{Grow, Store};
use trees::{Node, Parts, TermId};

/// The number of a type, or of a list of types, under the bindings. What is known by number is used again. No path through
/// the bindings is as long as `steps` allows.
#[cycle(build)]
pub fn build(
    store: &mut Store,
    rigid: usize,
    bindings: &Bindings,
    known: &mut HashMap<usize, TermId>,
    steps: usize,
    e: TermId,
) -> Result<TermId, AllocError>
    requires e_held { Holds store.old e }
    requires typed { (k : Bool) × IsTypeOrTypes k (tree_at store.old e) }
    requires bound { BindingsHeld store.old bindings.now }
    requires triangular { IsTriangular rigid (bound_over store.old bindings.now) }
    requires known { AreUnderSubstitution rigid (bound_over store.old bindings.now) store.old
        known.old }
    ensures held { IfOk result (Holds store.new) }
    ensures tree { IfOk result (λ id. tree_at store.new id
        ≡ assign rigid (resolve rigid (bound_over store.old bindings.now)) (tree_at store.old e)) }
    ensures known { OnOk result (AreUnderSubstitution rigid (bound_over store.old bindings.now)
        store.new
        known.new) }
    ensures grows { Grows store.old store.new }
{
    if let Some(made) = known.get(&e.0) {
        return Ok(*made);
    }
    if steps == 0 {
        return Err(AllocError);
    }
    let made = build_node(store, rigid, bindings, known, steps - 1, e)?;
    known.insert(e.0, made)?;
    Ok(made)
}

#[cycle(build)]
fn build_node(
    store: &mut Store,
    rigid: usize,
    bindings: &Bindings,
    known: &mut HashMap<usize, TermId>,
    steps: usize,
    e: TermId,
) -> Result<TermId, AllocError>
    requires e_held { Holds store.old e }
    requires typed { (k : Bool) × IsTypeOrTypes k (tree_at store.old e) }
    requires bound { BindingsHeld store.old bindings.now }
    requires triangular { IsTriangular rigid (bound_over store.old bindings.now) }
    requires known { AreUnderSubstitution rigid (bound_over store.old bindings.now) store.old
        known.old }
    ensures held { IfOk result (Holds store.new) }
    ensures tree { IfOk result (λ id. tree_at store.new id
        ≡ assign rigid (resolve rigid (bound_over store.old bindings.now)) (tree_at store.old e)) }
    ensures known { OnOk result (AreUnderSubstitution rigid (bound_over store.old bindings.now)
        store.new
        known.new) }
    ensures grows { Grows store.old store.new }
{
    match store.node(e) {
        Node::TyVar(j) => match bindings.get(j) {
            Some(ty) => build(store, rigid, bindings, known, steps, ty),
            None => Ok(e),
        },
        Node::TyApp(s, a) => {
            let a = build(store, rigid, bindings, known, steps, a)?;
            store.add(Node::TyApp(s, a))
        }
        Node::Cell(a, b) => {
            let a = build(store, rigid, bindings, known, steps, a)?;
            let b = build(store, rigid, bindings, known, steps, b)?;
            store.add(Node::Cell(a, b))
        }
        _ => Ok(e),
    }
}

/// Whether an unknown occurs in a tree: the one that is sought, or any. The numbers in `clear` have none.
#[cycle(occurrence)]
pub fn has_sought(
    store: &Store,
    clear: &mut HashSet<usize>,
    rigid: usize,
    sought: Option<usize>,
    e: TermId,
) -> Result<bool, AllocError>
    requires e_held { Holds store.now e }
    requires clear { AreClear rigid sought store.now clear.old }
    ensures answer { IfOk result (λ yes. yes ≡ has_sought rigid sought (tree_at store.now e)) }
    ensures clear { OnOk result (AreClear rigid sought store.now clear.new) }
{
    if clear.contains(&e.0) {
        return Ok(false);
    }
    let found = has_sought_inside(store, clear, rigid, sought, e)?;
    if !found {
        clear.insert(e.0)?;
    }
    Ok(found)
}

#[cycle(occurrence)]
fn has_sought_inside(
    store: &Store,
    clear: &mut HashSet<usize>,
    rigid: usize,
    sought: Option<usize>,
    e: TermId,
) -> Result<bool, AllocError>
    requires e_held { Holds store.now e }
    requires clear { AreClear rigid sought store.now clear.old }
    ensures answer { IfOk result (λ yes. yes ≡ has_sought rigid sought (tree_at store.now e)) }
    ensures clear { OnOk result (AreClear rigid sought store.now clear.new) }
{
    if let Node::TyVar(j) = store.node(e) {
        return Ok(is_sought(rigid, sought, j));
    }
    match store.node(e).parts() {
        Parts::None => Ok(false),
        Parts::One(a) => has_sought(store, clear, rigid, sought, a),
        Parts::Two(a, b) => {
            if has_sought(store, clear, rigid, sought, a)? {
                return Ok(true);
            }
            has_sought(store, clear, rigid, sought, b)
        }
        Parts::Three(a, b, c) => {
            if has_sought(store, clear, rigid, sought, a)? {
                return Ok(true);
            }
            if has_sought(store, clear, rigid, sought, b)? {
                return Ok(true);
            }
            has_sought(store, clear, rigid, sought, c)
        }
    }
}

fn is_sought(rigid: usize, sought: Option<usize>, j: usize) -> bool
    ensures { result ≡ is_sought rigid sought j }
{
    match sought {
        None => rigid <= j,
        Some(u) => u == j,
    }
}
