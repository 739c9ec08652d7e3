// The calls of `binders` on trees that are small enough, and a plain walk that makes each occurrence again as their reference.
// They depend on the store; the tables and the random trees depend on them.
ghost use Rattle.std.specs.Prelude.{◌≡◌, ◌<◌, IsTrue};
ghost use Rattle.trees.specs.Tree.{loose, size};
ghost use Rattle.trees.specs.Node.{tree_at, Holds};
ghost use Rattle.trees.specs.Sorts.{sort_of};

use std::alloc::Global;
use trees::binders::{close_param, inst, inst_many, inst_types, is_inst, is_inst_types, shift};
use trees::store::{Grow, Store};
use trees::{Node, Parts, Sort, TermId};

// What a call does: shift by so much from there on, put a term in for the variable 0, two for 1 and 0, a type for the type
// variable 0, or close over a parameter. Trees are under their numbers.
#[derive(Clone, Copy)]
pub enum Change {
    Shift(usize, usize),
    Put(usize),
    PutTwo(usize, usize),
    Types(usize),
    Close(usize),
}

// Adds a node, if it fits.
pub fn put(store: &mut Store, node: Node) -> Option<TermId> {
    if store.accepts(node) {
        store.add(node).ok()
    } else {
        None
    }
}

// Whether a tree is small, so that no index of a changed tree is too great.
fn is_small(store: &Store, e: TermId) -> bool
    requires { Holds store.now e }
    ensures loose { IsTrue result → loose (tree_at store.now e) < 1000 }
    ensures size { IsTrue result → size (tree_at store.now e) < 1000 }
{
    store.loose(e) < 1000 && store.size(e) < 1000
}

// Whether a tree is of a sort.
fn is(store: &Store, e: TermId, sort: Sort) -> bool
    requires { Holds store.now e }
    ensures { IsTrue result → sort_of (tree_at store.now e) ≡ sort }
{
    store.sort(e) == sort
}

// Whether a tree is a closed term.
fn is_closed_term(store: &Store, e: TermId) -> bool
    requires { Holds store.now e }
    ensures loose { IsTrue result → loose (tree_at store.now e) ≡ 0 }
    ensures sort { IsTrue result → sort_of (tree_at store.now e) ≡ Sort.Term }
{
    store.loose(e) == 0 && is(store, e, Sort::Term)
}

fn try_shift(
    alloc: Global,
    store: &mut Store,
    e: TermId,
    up: usize,
    from: usize,
) -> Option<TermId> {
    if !store.holds(e) {
        return None;
    }
    if up >= 1000 {
        return None;
    }
    if !is_small(store, e) {
        return None;
    }
    shift(alloc, store, e, up, from).ok()
}

fn closed_over(alloc: Global, store: &mut Store, e: TermId, param: usize) -> Option<TermId> {
    if !store.holds(e) {
        return None;
    }
    if !is_small(store, e) {
        return None;
    }
    close_param(alloc, store, e, param).ok()
}

// With a closed term; the tree may be of any size.
fn instance_by_closed(
    alloc: Global,
    store: &mut Store,
    body: TermId,
    by: TermId,
) -> Option<TermId> {
    if !store.holds(body) {
        return None;
    }
    if !store.holds(by) {
        return None;
    }
    if !is_closed_term(store, by) {
        return None;
    }
    store.laws();
    inst(alloc, store, body, by).ok()
}

// With a term that may be open.
fn instance(alloc: Global, store: &mut Store, body: TermId, by: TermId) -> Option<TermId> {
    if !store.holds(body) {
        return None;
    }
    if !store.holds(by) {
        return None;
    }
    if !is_small(store, body) {
        return None;
    }
    if !is_small(store, by) {
        return None;
    }
    if !is(store, by, Sort::Term) {
        return None;
    }
    inst(alloc, store, body, by).ok()
}

// The first closed term for the variable 1, and the second for the variable 0.
fn instance_by_two(
    alloc: Global,
    store: &mut Store,
    body: TermId,
    first: TermId,
    second: TermId,
) -> Option<TermId> {
    if !store.holds(body) {
        return None;
    }
    if !store.holds(first) {
        return None;
    }
    if !store.holds(second) {
        return None;
    }
    if !is_closed_term(store, first) {
        return None;
    }
    if !is_closed_term(store, second) {
        return None;
    }
    store.laws();
    inst_many(alloc, store, body, &[first, second]).ok()
}

fn at_type(alloc: Global, store: &mut Store, e: TermId, ty: TermId) -> Option<TermId> {
    if !store.holds(e) || !store.holds(ty) {
        return None;
    }
    if !is(store, ty, Sort::Kind) {
        return None;
    }
    inst_types(alloc, store, e, &[ty]).ok()
}

// The changed tree, where the call may be made.
pub fn make_change(alloc: Global, store: &mut Store, e: TermId, change: Change) -> Option<TermId> {
    match change {
        Change::Shift(up, from) => try_shift(alloc, store, e, up, from),
        Change::Put(by) => {
            let by = TermId(by);
            match instance_by_closed(alloc, store, e, by) {
                Some(made) => Some(made),
                None => instance(alloc, store, e, by),
            }
        }
        Change::PutTwo(first, second) => instance_by_two(
            alloc,
            store,
            e,
            TermId(first),
            TermId(second),
        ),
        Change::Types(ty) => at_type(alloc, store, e, TermId(ty)),
        Change::Close(param) => closed_over(alloc, store, e, param),
    }
}

// Whether the call makes this tree, as it is told without memory, for a change that has such a test.
pub fn is_made(store: &Store, e: TermId, change: Change, tree: TermId) -> Option<bool> {
    if !store.holds(e) || !store.holds(tree) {
        return None;
    }
    match change {
        Change::Put(by) => is_instance(store, e, TermId(by), tree),
        Change::Types(ty) => is_at_type(store, e, TermId(ty), tree),
        _ => None,
    }
}

fn is_instance(store: &Store, e: TermId, by: TermId, tree: TermId) -> Option<bool>
    requires e { Holds store.now e }
    requires tree { Holds store.now tree }
{
    if store.holds(by) {
        Some(is_inst(store, e, by, tree))
    } else {
        None
    }
}

fn is_at_type(store: &Store, e: TermId, ty: TermId, tree: TermId) -> Option<bool>
    requires e { Holds store.now e }
    requires tree { Holds store.now tree }
{
    if store.holds(ty) && is(store, ty, Sort::Kind) {
        Some(is_inst_types(store, e, &[ty], tree))
    } else {
        None
    }
}

// What stands for a variable that the binders around do not close, if it is not one variable less or more.
fn plain_put(
    alloc: Global,
    store: &mut Store,
    change: Change,
    depth: usize,
    above: usize,
) -> Option<TermId> {
    match (change, above) {
        (Change::Put(by), 0) => try_shift(alloc, store, TermId(by), depth, 0),
        (Change::PutTwo(_, second), 0) => Some(TermId(second)),
        (Change::PutTwo(first, _), 1) => Some(TermId(first)),
        _ => None,
    }
}

// The index of such a variable.
fn plain_index(change: Change, index: usize, above: usize) -> usize {
    match change {
        Change::Shift(up, from) => if above < from {
            index
        } else {
            index.saturating_add(up)
        },
        Change::Put(_) => index.saturating_sub(1),
        Change::PutTwo(_, _) => index.saturating_sub(2),
        Change::Types(_) => index,
        Change::Close(_) => index.saturating_add(1),
    }
}

// The node of a tree below so many binders, over its changed children.
fn rebuild_node(
    alloc: Global,
    store: &mut Store,
    node: Node,
    made: Node,
    change: Change,
    depth: usize,
) -> Option<TermId> {
    match (node, made, change) {
        (Node::Bound(index, _), Node::Bound(_, ty), _) => {
            if index < depth {
                return put(store, made);
            }
            match plain_put(alloc, store, change, depth, index - depth) {
                Some(found) => Some(found),
                None => put(
                    store,
                    Node::Bound(plain_index(change, index, index - depth), ty),
                ),
            }
        }
        (Node::Param(number, _), Node::Param(_, ty), Change::Close(param)) => {
            if number == param {
                put(store, Node::Bound(depth, ty))
            } else {
                put(store, made)
            }
        }
        (Node::TyVar(0), _, Change::Types(ty)) => Some(TermId(ty)),
        _ => put(store, made),
    }
}

// The change of a tree below so many binders, by a walk that makes each occurrence of a part again.
pub fn plain(
    alloc: Global,
    store: &mut Store,
    e: TermId,
    change: Change,
    depth: usize,
) -> Option<TermId> {
    if !store.holds(e) {
        return None;
    }
    let node = store.node(e);
    match node.parts() {
        Parts::None => rebuild_node(alloc, store, node, node, change, depth),
        Parts::One(a) => {
            let x = plain(alloc, store, a, change, depth)?;
            rebuild_node(
                alloc,
                store,
                node,
                node.with_parts(Parts::One(x)),
                change,
                depth,
            )
        }
        Parts::Two(a, b) => {
            let under = depth.saturating_add(store.binders(node, a));
            let x = plain(alloc, store, a, change, depth)?;
            let y = plain(alloc, store, b, change, under)?;
            put(store, node.with_parts(Parts::Two(x, y)))
        }
        Parts::Three(a, b, c) => {
            let x = plain(alloc, store, a, change, depth)?;
            let y = plain(alloc, store, b, change, depth)?;
            let z = plain(alloc, store, c, change, depth)?;
            put(store, node.with_parts(Parts::Three(x, y, z)))
        }
    }
}
