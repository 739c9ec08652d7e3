// Whether each instance of a tree is large, and which variables a tree uses.
ghost use Rattle.std.specs.Prelude.{◌≡◌, ◌+◌, ◌≤◌, ◌<◌, IsTrue, IfOk, IfErr};
ghost use Rattle.trees.specs.Node.{tree_at, Holds};
ghost use Rattle.tr_inline.specs.full_bodies.Least.{least_size, least_height, HasLargeInstances, is_used};
ghost use Rattle.tr_inline.specs.full_bodies.Faults.{IsFaultOf};

use crate::full_bodies::fault::InlineFault;
use trees::store::Store;
use trees::{Node, Parts, TermId};

const NODES: u64 = 1 << 20;

const HEIGHT: u64 = 2000;

// A number of nodes that each instance has: all that are counted, or more than `most` of them.
#[cycle(counting)]
fn least_nodes(store: &Store, e: TermId, most: u64) -> u64
    requires { Holds store.now e }
    ensures { result ≤ least_size (tree_at store.now e) }
{
    let node = store.node(e);
    if let Node::Bound(_, _) = node {
        return 1;
    }
    match node.parts() {
        Parts::None => 1,
        Parts::One(a) => least_nodes(store, a, most).saturating_add(1),
        Parts::Two(a, b) => {
            let one = least_nodes(store, a, most);
            joined_nodes(store, one, b, most)
        }
        Parts::Three(a, b, c) => {
            let one = least_nodes(store, a, most);
            let two = joined_nodes(store, one, b, most);
            joined_nodes(store, two, c, most)
        }
    }
}

// The nodes of a part more, unless there are more than `most` before.
#[cycle(counting)]
fn joined_nodes(store: &Store, before: u64, part: TermId, most: u64) -> u64
    requires { Holds store.now part }
    ensures { result ≤ before + least_size (tree_at store.now part) }
{
    if before > most {
        return before;
    }
    before.saturating_add(least_nodes(store, part, most - before))
}

// Whether a path of more than so many nodes is found, which each instance has.
fn is_higher(store: &Store, e: TermId, most: u64) -> bool
    requires { Holds store.now e }
    ensures { IsTrue result → most < least_height (tree_at store.now e) }
{
    if most == 0 {
        return true;
    }
    if store.height(e) <= most {
        return false;
    }
    let node = store.node(e);
    if let Node::Bound(_, _) = node {
        return false;
    }
    match node.parts() {
        Parts::None => false,
        Parts::One(a) => is_higher(store, a, most - 1),
        Parts::Two(a, b) => is_higher(store, a, most - 1) || is_higher(store, b, most - 1),
        Parts::Three(a, b, c) => {
            is_higher(store, a, most - 1)
                || is_higher(store, b, most - 1)
                || is_higher(store, c, most - 1)
        }
    }
}

/// The number itself, where the tree isn't found to be large.
pub(crate) fn refuse_large(store: &Store, id: TermId) -> Result<TermId, InlineFault>
    requires { Holds store.now id }
    ensures same { IfOk result (λ m. m ≡ id) }
    ensures fault { IfErr result (IsFaultOf (tree_at store.now id)) }
{
    if store.size(id) > NODES && least_nodes(store, id, NODES) > NODES {
        return Err(InlineFault::Large);
    }
    if store.height(id) > HEIGHT && is_higher(store, id, HEIGHT) {
        return Err(InlineFault::Large);
    }
    Ok(id)
}

/// Whether the variable of this number of binders up is used.
pub(crate) fn uses_variable(store: &Store, e: TermId, number: usize) -> bool
    requires { Holds store.now e }
    ensures { result ≡ is_used number (tree_at store.now e) }
{
    let node = store.node(e);
    if let Node::Bound(i, _) = node {
        return i == number;
    }
    match node.parts() {
        Parts::None => false,
        Parts::One(a) => uses_variable(store, a, number),
        Parts::Two(a, b) => {
            let under = number.saturating_add(store.binders(node, a));
            uses_variable(store, a, number) || uses_variable(store, b, under)
        }
        Parts::Three(a, b, c) => {
            uses_variable(store, a, number)
                || uses_variable(store, b, number)
                || uses_variable(store, c, number)
        }
    }
}
