//! The change of a tree over a store: one walk for all binding functions, which remembers what it made.
//! It depends on the store's queries; the binding functions depend on it.

ghost use Rattle.std.specs.Prelude.{◌≡◌, ◌<◌, List, None, length, IfOk};
ghost use Rattle.trees.specs.Node.{tree_at, node_tree, assemble, Holds, Grows, head_of_node, parts_of, AreBelow, IsLike};
ghost use Rattle.trees.specs.Sorts.{sort_of, Fits, WellSorted};
ghost use Rattle.trees.specs.Facts.{IndicesFit, PutsSorts};
ghost use Rattle.trees.specs.Tree.{Tree, head_of};
ghost use Rattle.trees.specs.Binding.{Change, change};
ghost use Rattle.trees.specs.binders.Depth.{IsUnder, FitsUnder, IsVisited, ChangesChildrenOnly};
ghost use Rattle.trees.specs.binders.Known.{CanRebuild, IsRebuilt};

use crate::store::Grow;
use crate::{Node, Parts, TermId};
use indexmap::IndexMap;
use std::alloc::{AllocError, Global};

/// What a binding function makes of the trees where it changes them, and which it leaves.
pub trait Visit {
    /// As a change of trees, over a store.
    ghost change_over: { Self → List Tree → Change };

    /// The numbers in it are held, and of fitting sorts.
    ghost Ready: { Self → List Tree → Type 0 };

    /// The change of a tree, if its node says what it is, and none where it is that node over the changes of its children.
    fn visit<G: Grow>(
        &self,
        alloc: Global,
        g: &mut G,
        e: TermId,
        depth: usize,
    ) -> Result<Option<TermId>, AllocError>
        requires ready { Ready self.now (G.trees g.old) }
        requires held { Holds (G.trees g.old) e }
        requires fits { FitsUnder (change_over self.now (G.trees g.old)) depth
            (tree_at (G.trees g.old) e) }
        ensures visited { IfOk result (IsVisited (change_over self.now (G.trees g.old)) depth
            (tree_at (G.trees g.old) e) (G.trees g.new)) }
        ensures kept { IfOk result (λ r. r ≡ None → g.new ≡ g.old) }
        ensures grows { G.grows g.old g.new };

    ghost stays_ready: { (v : Self) (s t : List Tree) → Grows s t → Ready v s → Ready v t };

    ghost stays: { (v : Self) (s t : List Tree) → Grows s t → Ready v s → change_over v t ≡ change_over v s };

    ghost sorts: { (v : Self) (s : List Tree) → Ready v s → PutsSorts (change_over v s) };
}

// What is made so far, by the number of a tree and the number of binders around it.
type Known = IndexMap<(usize, usize), TermId>;

// The node of a number.
pub(crate) fn node_of<G: Grow>(g: &G, id: TermId) -> Node
    requires { Holds (G.trees g.now) id }
    ensures tree { tree_at (G.trees g.now) id ≡ node_tree (G.trees g.now) result }
    ensures below { AreBelow id.0 (parts_of result) }
    ensures fits { Fits (tree_at (G.trees g.now) id) }
    ensures sorted { WellSorted (tree_at (G.trees g.now) id) }
{
    g.store().node(id)
}

// How many variables a node binds in its second child, whose first child is given, on top of so many.
pub(crate) fn depth_under<G: Grow>(g: &G, node: Node, first: TermId, depth: usize) -> usize
    requires { Holds (G.trees g.now) first }
    ensures { IsUnder depth result (head_of_node node) (tree_at (G.trees g.now) first) }
{
    depth.saturating_add(g.store().binders(node, first))
}

// The node with other children.
fn remake<G: Grow>(g: &mut G, node: Node, parts: Parts) -> Result<TermId, AllocError>
    requires like { IsLike (parts_of node) parts }
    requires held { AreBelow (length (G.trees g.old)) parts }
    requires fits { Fits (assemble (G.trees g.old) (head_of_node node) parts) }
    ensures held { IfOk result (Holds (G.trees g.new)) }
    ensures tree { IfOk result (λ id. tree_at (G.trees g.new) id
        ≡ assemble (G.trees g.old) (head_of_node node) parts) }
    ensures grows { G.grows g.old g.new }
{
    g.add(node.with_parts(parts))
}

// The change of a tree below so many binders, which is made once.
#[cycle(rebuild)]
fn rebuild<G: Grow, V: Visit>(
    alloc: Global,
    g: &mut G,
    visit: &V,
    known: &mut Known,
    e: TermId,
    depth: usize,
) -> Result<TermId, AllocError>
    requires { CanRebuild (V.change_over visit.now (G.trees g.old))
        (V.Ready visit.now (G.trees g.old)) (G.trees g.old) known.old e depth }
    ensures rebuilt { IfOk result (IsRebuilt (V.change_over visit.now (G.trees g.old))
        (tree_at (G.trees g.old) e) depth (G.trees g.new) known.new) }
    ensures grows { G.grows g.old g.new }
{
    if let Some(made) = known.get(&(e.0, depth)) {
        return Ok(*made);
    }
    let made = rebuild_node(alloc, g, visit, known, e, depth)?;
    known.insert((e.0, depth), made)?;
    Ok(made)
}

// The change of a tree, from its node or from the changes of its children.
#[cycle(rebuild)]
fn rebuild_node<G: Grow, V: Visit>(
    alloc: Global,
    g: &mut G,
    visit: &V,
    known: &mut Known,
    e: TermId,
    depth: usize,
) -> Result<TermId, AllocError>
    requires { CanRebuild (V.change_over visit.now (G.trees g.old))
        (V.Ready visit.now (G.trees g.old)) (G.trees g.old) known.old e depth }
    ensures rebuilt { IfOk result (IsRebuilt (V.change_over visit.now (G.trees g.old))
        (tree_at (G.trees g.old) e) depth (G.trees g.new) known.new) }
    ensures grows { G.grows g.old g.new }
{
    match visit.visit(alloc, g, e, depth)? {
        Some(made) => Ok(made),
        None => rebuild_parts(alloc, g, visit, known, e, depth),
    }
}

// The node of a tree over the changes of its children.
#[cycle(rebuild)]
fn rebuild_parts<G: Grow, V: Visit>(
    alloc: Global,
    g: &mut G,
    visit: &V,
    known: &mut Known,
    e: TermId,
    depth: usize,
) -> Result<TermId, AllocError>
    requires can { CanRebuild (V.change_over visit.now (G.trees g.old))
        (V.Ready visit.now (G.trees g.old)) (G.trees g.old) known.old e depth }
    requires plain { ChangesChildrenOnly (V.change_over visit.now (G.trees g.old))
        (head_of (tree_at (G.trees g.old) e)) }
    ensures rebuilt { IfOk result (IsRebuilt (V.change_over visit.now (G.trees g.old))
        (tree_at (G.trees g.old) e) depth (G.trees g.new) known.new) }
    ensures grows { G.grows g.old g.new }
{
    let node = node_of(g, e);
    match node.parts() {
        Parts::None => Ok(e),
        Parts::One(a) => {
            let x = rebuild(alloc, g, visit, known, a, depth)?;
            remake(g, node, Parts::One(x))
        }
        Parts::Two(a, b) => {
            let under = depth_under(g, node, a, depth);
            let x = rebuild(alloc, g, visit, known, a, depth)?;
            let y = rebuild(alloc, g, visit, known, b, under)?;
            remake(g, node, Parts::Two(x, y))
        }
        Parts::Three(a, b, c) => {
            let x = rebuild(alloc, g, visit, known, a, depth)?;
            let y = rebuild(alloc, g, visit, known, b, depth)?;
            let z = rebuild(alloc, g, visit, known, c, depth)?;
            remake(g, node, Parts::Three(x, y, z))
        }
    }
}

/// The change of a tree. Each part of it is visited once under each number of binders.
pub fn change_tree<G: Grow, V: Visit>(
    alloc: Global,
    g: &mut G,
    visit: &V,
    e: TermId,
) -> Result<TermId, AllocError>
    requires ready { V.Ready visit.now (G.trees g.old) }
    requires e_held { Holds (G.trees g.old) e }
    requires fits { IndicesFit (change (V.change_over visit.now (G.trees g.old)) 0
        (tree_at (G.trees g.old) e)) }
    ensures held { IfOk result (Holds (G.trees g.new)) }
    ensures tree { IfOk result (λ id. tree_at (G.trees g.new) id
        ≡ change (V.change_over visit.now (G.trees g.old)) 0 (tree_at (G.trees g.old) e)) }
    ensures sorted { IfOk result (λ id. WellSorted (tree_at (G.trees g.new) id)) }
    ensures sort { IfOk result (λ id. sort_of (tree_at (G.trees g.new) id)
        ≡ sort_of (tree_at (G.trees g.old) e)) }
    ensures grows { G.grows g.old g.new }
{
    let mut known = IndexMap::new(alloc);
    let made = rebuild(alloc, g, visit, &mut known, e, 0)?;
    g.store().laws();
    Ok(made)
}
