// A tree under the same variables in another order.
// It depends on the walk of the binding functions; the arms of branches depend on it.
ghost use Rattle.std.specs.Prelude.{refl, ◌≡◌, IsTrue, IfOk};
ghost use Rattle.trees.specs.Tree.{head_of};
ghost use Rattle.trees.specs.Node.{tree_at, node_tree, head_of_node, parts_of, AreBelow, Holds, Grows};
ghost use Rattle.trees.specs.Sorts.{sort_of, Fits, WellSorted};
ghost use Rattle.trees.specs.Binding.{change};
ghost use Rattle.open_types.specs.Patterns.{reordering};
ghost use Rattle.open_types.specs.Reordered.{sorts_reordering, IsInOrder, HeadFits, AllReorderedFit, IsLookedAt};

use indexmap::IndexSet;
use std::alloc::{AllocError, Global};
use trees::binders::{Visit, change_tree};
use trees::store::{Grow, Node, Parts, Store, TermId};

/// The innermost variables have other places.
#[derive(Drop)]
struct Reordering<'a> {
    places: &'a [usize],
}

// The node of a number.
fn node_in<G: Grow>(g: &G, id: TermId) -> Node
    requires { Holds (G.trees g.now) id }
    ensures tree { tree_at (G.trees g.now) id ≡ node_tree (G.trees g.now) result }
    ensures below { AreBelow id.0 (parts_of result) }
    ensures fits { Fits (tree_at (G.trees g.now) id) }
    ensures sorted { WellSorted (tree_at (G.trees g.now) id) }
{
    g.store().node(id)
}

impl<'a> Visit for Reordering<'a> {
    ghost change_over = { λ v s. reordering v.places.now };

    ghost Ready = { λ v s. Unit {0} };

    ghost stays_ready = { λ v s t w r. tt };

    ghost stays = { λ v s t w r. refl };

    ghost sorts = { λ v s r. sorts_reordering v.places.now };

    fn visit<G: Grow>(
        &self,
        alloc: Global,
        g: &mut G,
        e: TermId,
        depth: usize,
    ) -> Result<Option<TermId>, AllocError> {
        if g.store().loose(e) <= depth {
            return Ok(Some(e));
        }
        match node_in(g, e) {
            Node::Bound(index, ty) => {
                let inner = index - depth;
                if inner < self.places.len() {
                    Ok(Some(g.add(Node::Bound(depth + self.places[inner], ty))?))
                } else {
                    Ok(Some(e))
                }
            }
            _ => Ok(None),
        }
    }
}

// Whether the index of a node below so many binders stays below the greatest number where the innermost variables have these
// places.
fn keeps_index(node: Node, depth: usize, places: &[usize]) -> bool
    ensures { IsTrue result → HeadFits places.now depth (head_of_node node) }
{
    match node {
        Node::Bound(index, _) => {
            index < depth
                || index - depth >= places.len()
                || places[index - depth] < usize::MAX - depth
        }
        _ => true,
    }
}

// Looks at a tree below so many binders, at each part once below each number of them. That an index would be the greatest number
// in the new order is want of memory.
#[cycle(look)]
fn look_at(
    store: &Store,
    places: &[usize],
    seen: &mut IndexSet<(usize, usize)>,
    e: TermId,
    depth: usize,
) -> Result<(), AllocError>
    requires seen { AllReorderedFit places.now store.now seen.old.keys }
    requires held { Holds store.now e }
    ensures { IfOk result (λ _. IsLookedAt places.now store.now depth (tree_at store.now e)
        seen.new.keys) }
{
    let node = store.node(e);
    if store.loose(e) <= depth {
        return Ok(());
    }
    if seen.contains(&(e.0, depth)) {
        return Ok(());
    }
    if !keeps_index(node, depth, places) {
        return Err(AllocError);
    }
    look_at_parts(store, places, seen, e, depth)?;
    seen.insert((e.0, depth))?;
    Ok(())
}

// Looks at the children of a tree whose own index stays below the greatest number.
#[cycle(look)]
fn look_at_parts(
    store: &Store,
    places: &[usize],
    seen: &mut IndexSet<(usize, usize)>,
    e: TermId,
    depth: usize,
) -> Result<(), AllocError>
    requires seen { AllReorderedFit places.now store.now seen.old.keys }
    requires held { Holds store.now e }
    requires own { HeadFits places.now depth (head_of (tree_at store.now e)) }
    ensures { IfOk result (λ _. IsLookedAt places.now store.now depth (tree_at store.now e)
        seen.new.keys) }
{
    let node = store.node(e);
    match node.parts() {
        Parts::None => Ok(()),
        Parts::One(a) => look_at(store, places, seen, a, depth),
        Parts::Two(a, b) => {
            look_at(store, places, seen, a, depth)?;
            look_at(
                store,
                places,
                seen,
                b,
                depth.saturating_add(store.binders(node, a)),
            )
        }
        Parts::Three(a, b, c) => {
            look_at(store, places, seen, a, depth)?;
            look_at(store, places, seen, b, depth)?;
            look_at(store, places, seen, c, depth)
        }
    }
}

// Whether places are the numbers in order from one on.
fn is_in_order(places: &[usize], from: usize) -> bool
    ensures { IsTrue result → IsInOrder from places.now }
{
    match places.split_first() {
        Some((first, rest)) => {
            if *first != from {
                return false;
            }
            match from.checked_add(1) {
                Some(next) => is_in_order(rest, next),
                None => rest.is_empty(),
            }
        }
        None => true,
    }
}

/// The tree in which the innermost variables have these places. That an index would be the greatest number, below nearly as many
/// binders as there are numbers, is want of memory.
pub fn reorder(
    alloc: Global,
    store: &mut Store,
    body: TermId,
    places: &[usize],
) -> Result<TermId, AllocError>
    requires { Holds store.old body }
    ensures held { IfOk result (Holds store.new) }
    ensures tree { IfOk result (λ id. tree_at store.new id
        ≡ change (reordering places.now) 0 (tree_at store.old body)) }
    ensures sort { IfOk result (λ id. sort_of (tree_at store.new id)
        ≡ sort_of (tree_at store.old body)) }
    ensures grows { Grows store.old store.new }
{
    if is_in_order(places, 0) {
        return Ok(body);
    }
    look_at(store, places, &mut IndexSet::new(alloc), body, 0)?;
    change_tree(alloc, store, &Reordering { places }, body)
}
