// The first conditional term of an atom, and another term in its place.
ghost use Rattle.std.specs.Prelude.{◌≡◌, length, IfOk};
ghost use Rattle.trees.specs.Tree.{HIf, head_of};
ghost use Rattle.trees.specs.Node.{tree_at, node_tree, parts_of, AreBelow, Holds};
ghost use Rattle.tr_if.specs.conditionals.Conditionals.{first_if};
ghost use Rattle.tr_if.specs.conditionals.Held.{IsNumberOf, AreIfParts, CanPlace, IsMadeInPlace};
ghost use Rattle.tr_if.specs.conditionals.Places.{with_first, IsFirstPlace};

use std::alloc::AllocError;
use trees::store::{Grow, Store};
use trees::{Node, TermId};

/// The condition and the parts of a conditional.
#[derive(Clone, Copy)]
pub struct IfParts {
    pub condition: TermId,
    pub then_part: TermId,
    pub else_part: TermId,
}

/// The parts of a conditional.
pub fn if_parts(store: &Store, whole: TermId) -> IfParts
    requires held { Holds store.now whole }
    requires head { head_of (tree_at store.now whole) ≡ HIf }
    ensures { AreIfParts store.now (tree_at store.now whole) result }
{
    match store.node(whole) {
        Node::If(condition, then_part, else_part) => IfParts {
            condition,
            then_part,
            else_part,
        },
        _ => unreachable!(),
    }
}

/// The first conditional term of an atom, a term or a list of terms, in preorder.
pub fn first_if(store: &Store, e: TermId) -> Option<TermId>
    requires { Holds store.now e }
    ensures { IsNumberOf store.now result (first_if (tree_at store.now e)) }
{
    match store.node(e) {
        Node::If(_, _, _) => Some(e),
        Node::Fun(_, _, args, _) | Node::Pred(_, _, args) => first_if(store, args),
        Node::Eq(a, b) | Node::Cell(a, b) => match first_if(store, a) {
            Some(found) => Some(found),
            None => first_if(store, b),
        },
        _ => None,
    }
}

/// Where the first conditional of a tree is, if it has one: it is the tree, or it is in this child.
#[derive(Clone, Copy)]
enum FirstPlace {
    Here,
    Below(TermId),
    Nowhere,
}

// Where the first conditional of a tree is; of two children the second one where the first has none.
fn place_of_first(store: &Store, e: TermId) -> FirstPlace
    requires { Holds store.now e }
    ensures { IsFirstPlace store.now e result }
{
    match store.node(e) {
        Node::If(_, _, _) => FirstPlace::Here,
        Node::Fun(_, _, args, _) => FirstPlace::Below(args),
        Node::Pred(_, _, args) => FirstPlace::Below(args),
        Node::Eq(a, b) => match first_if(store, a) {
            Some(_) => FirstPlace::Below(a),
            None => FirstPlace::Below(b),
        },
        Node::Cell(a, b) => match first_if(store, a) {
            Some(_) => FirstPlace::Below(a),
            None => FirstPlace::Below(b),
        },
        _ => FirstPlace::Nowhere,
    }
}

// The node with another child in the place of that.
fn with_child(store: &Store, e: TermId, made: TermId) -> Node
    requires held { Holds store.now e }
    requires made_held { Holds store.now made }
    ensures tree { node_tree store.now result
        ≡ with_first (tree_at store.now e) (tree_at store.now made) }
    ensures below { AreBelow (length store.now) (parts_of result) }
{
    match store.node(e) {
        Node::Fun(f, types, _, ty) => Node::Fun(f, types, made, ty),
        Node::Pred(p, types, _) => Node::Pred(p, types, made),
        Node::Eq(a, b) => match first_if(store, a) {
            Some(_) => Node::Eq(made, b),
            None => Node::Eq(a, made),
        },
        Node::Cell(a, b) => match first_if(store, a) {
            Some(_) => Node::Cell(made, b),
            None => Node::Cell(a, made),
        },
        node => node,
    }
}

/// The tree with another expression in the place of its first conditional, and there alone.
///
/// Only want of memory refuses.
pub fn replace_first<G: Grow>(g: &mut G, e: TermId, x: TermId) -> Result<TermId, AllocError>
    requires { CanPlace (G.trees g.old) e x }
    ensures placed { IfOk result (IsMadeInPlace (tree_at (G.trees g.old) e)
        (tree_at (G.trees g.old) x) (G.trees g.new)) }
    ensures grows { G.grows g.old g.new }
{
    match place_of_first(g.store(), e) {
        FirstPlace::Here => Ok(x),
        FirstPlace::Below(child) => {
            let made = replace_first(g, child, x)?;
            let node = with_child(g.store(), e, made);
            let whole = g.add(node)?;
            Ok(whole)
        }
        FirstPlace::Nowhere => Ok(e),
    }
}
