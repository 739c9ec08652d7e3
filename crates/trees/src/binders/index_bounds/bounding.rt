// A number that is above each index of a tree. Each different part is visited once, and a small one isn't visited.
ghost use Rattle.std.specs.Prelude.{◌≤◌, IfOk};
ghost use Rattle.trees.specs.Node.{tree_at, Holds};
ghost use Rattle.trees.specs.binders.index_bounds.Bounds.{above_indices, CanBound, IsBounded};

use crate::store::Store;
use crate::{Node, Parts, TermId};
use indexmap::IndexMap;
use std::alloc::{AllocError, Global};

// What is found so far, by the number of a tree.
type Known = IndexMap<usize, usize>;

// So many open variables, and so many nodes, together, leave room for as many again.
const OPEN: usize = 4_000_000_000_000_000_000;

const NODES: u64 = 4_000_000_000_000_000_000;

const SMALL: usize = 8_000_000_000_000_000_000;

// The number for a tree, which is found once.
#[cycle(bounding)]
fn tree_bound(store: &Store, known: &mut Known, e: TermId) -> Result<usize, AllocError>
    requires { CanBound store.now known.old e }
    ensures { IfOk result (IsBounded store.now e known.new) }
{
    if store.loose(e) < OPEN && store.size(e) < NODES {
        return Ok(SMALL);
    }
    if let Some(made) = known.get(&e.0) {
        return Ok(*made);
    }
    let made = node_bound(store, known, e)?;
    known.insert(e.0, made)?;
    Ok(made)
}

// The same, of a tree that isn't remembered.
#[cycle(bounding)]
fn node_bound(store: &Store, known: &mut Known, e: TermId) -> Result<usize, AllocError>
    requires { CanBound store.now known.old e }
    ensures { IfOk result (IsBounded store.now e known.new) }
{
    let node = store.node(e);
    if let Node::Bound(index, ty) = node {
        let inner = tree_bound(store, known, ty)?;
        return Ok(inner.max(index + 1));
    }
    match node.parts() {
        Parts::None => Ok(0),
        Parts::One(a) => {
            let x = tree_bound(store, known, a)?;
            Ok(x)
        }
        Parts::Two(a, b) => {
            let x = tree_bound(store, known, a)?;
            let y = tree_bound(store, known, b)?;
            Ok(x.max(y))
        }
        Parts::Three(a, b, c) => {
            let x = tree_bound(store, known, a)?;
            let y = tree_bound(store, known, b)?;
            let z = tree_bound(store, known, c)?;
            Ok(x.max(y.max(z)))
        }
    }
}

/// A number that is above each index of a tree.
pub(crate) fn index_bound(alloc: Global, store: &Store, e: TermId) -> Result<usize, AllocError>
    requires { Holds store.now e }
    ensures { IfOk result (λ n. above_indices (tree_at store.now e) ≤ n) }
{
    let mut known = IndexMap::new(alloc);
    let made = tree_bound(store, &mut known, e)?;
    Ok(made)
}
