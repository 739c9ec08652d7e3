//! Tests without memory: whether a tree is another one with a term put in, or at types.
//! It depends on the store's queries alone, so that a checker of derivations can ask without making a tree.

ghost use Rattle.std.specs.Prelude.{◌≡◌, ◌↔◌, ◌+◌, List, IsTrue};
ghost use Rattle.trees.specs.Tree.{Tree};
ghost use Rattle.trees.specs.Node.{tree_at, Holds};
ghost use Rattle.trees.specs.Binding.{Change, change, Bound, shifting, shift, instantiating, inst, typing, inst_types};
ghost use Rattle.trees.specs.binders.Visits.{HoldTypes, trees_at};
ghost use Rattle.trees.specs.binders.Depth.{IsChanged, CanBe, IsTold};

use crate::binders::rebuilding::depth_under;
use crate::store::Store;
use crate::{Node, Parts, TermId, same_head};

/// What is written in a tree, told without making it.
pub trait Put {
    /// As a change of trees, over a store.
    ghost change_over: { Self → List Tree → Change };

    /// The numbers in it are held.
    ghost Ready: { Self → List Tree → Type 0 };

    /// Whether `made` is the change of `e` below so many binders, if the node of `e` says so, and none where the change is that
    /// node over the changes of its children.
    fn is_put(&self, s: &Store, e: TermId, depth: usize, made: TermId) -> Option<bool>
        requires ready { Ready self.now s.now }
        requires e_held { Holds s.now e }
        requires made_held { Holds s.now made }
        ensures { IsTold (change_over self.now s.now) depth (tree_at s.now e) (tree_at s.now made)
            result };
}

// Whether a tree is the change of another one below so many binders.
fn is_changed_under<P: Put>(s: &Store, put: &P, e: TermId, depth: usize, made: TermId) -> bool
    requires ready { P.Ready put.now s.now }
    requires e_held { Holds s.now e }
    requires made_held { Holds s.now made }
    ensures is { IsTrue result → IsChanged (P.change_over put.now s.now) depth (tree_at s.now e)
        (tree_at s.now made) }
    ensures can { CanBe (P.change_over put.now s.now) depth (tree_at s.now e) (tree_at s.now made)
        → IsTrue result }
{
    match put.is_put(s, e, depth, made) {
        Some(told) => return told,
        None => {}
    }
    let node = s.node(e);
    let other = s.node(made);
    match (node.parts(), other.parts()) {
        (Parts::None, Parts::None) => same_head(other, node),
        (Parts::One(a), Parts::One(x)) => same_head(other, node)
            && is_changed_under(s, put, a, depth, x),
        (Parts::Two(a, b), Parts::Two(x, y)) => {
            let under = depth_under(s, node, a, depth);
            same_head(other, node)
                && is_changed_under(s, put, a, depth, x)
                && is_changed_under(s, put, b, under, y)
        },
        (Parts::Three(a, b, c), Parts::Three(x, y, z)) => same_head(other, node)
            && is_changed_under(s, put, a, depth, x)
            && is_changed_under(s, put, b, depth, y)
            && is_changed_under(s, put, c, depth, z),
        _ => false,
    }
}

/// Whether a tree is the change of another one.
pub fn is_changed<P: Put>(s: &Store, put: &P, e: TermId, made: TermId) -> bool
    requires ready { P.Ready put.now s.now }
    requires e_held { Holds s.now e }
    requires made_held { Holds s.now made }
    ensures { IsTrue result ↔ (tree_at s.now made
        ≡ change (P.change_over put.now s.now) 0 (tree_at s.now e)) }
{
    is_changed_under(s, put, e, 0, made)
}

// Each loose variable rises.
#[derive(Drop)]
struct Rising {
    up: usize,
}

impl Put for Rising {
    ghost change_over = { λ v s. shifting v.up 0 };

    ghost Ready = { λ v s. Unit {0} };

    fn is_put(&self, s: &Store, e: TermId, depth: usize, made: TermId) -> Option<bool> {
        if s.loose(e) <= depth {
            return Some(s.same(made, e));
        }
        match s.node(e) {
            Node::Bound(index, ty) => Some(is_raised(s, made, index, self.up, ty)),
            _ => None,
        }
    }
}

// Whether a tree is a variable of a type, raised.
fn is_raised(s: &Store, made: TermId, index: usize, up: usize, ty: TermId) -> bool
    requires made_held { Holds s.now made }
    requires ty_held { Holds s.now ty }
    ensures { IsTrue result ↔ (tree_at s.now made ≡ Bound (index + up) (tree_at s.now ty)) }
{
    match s.node(made) {
        Node::Bound(found, known) => found >= up && found - up == index && s.same(known, ty),
        _ => false,
    }
}

// The variable 0 becomes a term.
#[derive(Drop)]
struct Replacing {
    by: TermId,
}

impl Put for Replacing {
    ghost change_over = { λ v s. instantiating (tree_at s v.by) };

    ghost Ready = { λ v s. Holds s v.by };

    fn is_put(&self, s: &Store, e: TermId, depth: usize, made: TermId) -> Option<bool> {
        if s.loose(e) <= depth {
            return Some(s.same(made, e));
        }
        match s.node(e) {
            Node::Bound(index, ty) => {
                if index == depth {
                    Some(is_changed(s, &Rising { up: depth }, self.by, made))
                } else {
                    Some(is_raised(s, made, index - 1, 0, ty))
                }
            }
            _ => None,
        }
    }
}

/// Whether a tree is `body` with a term in the place of its variable 0.
pub fn is_inst(s: &Store, body: TermId, by: TermId, made: TermId) -> bool
    requires body_held { Holds s.now body }
    requires by_held { Holds s.now by }
    requires made_held { Holds s.now made }
    ensures { IsTrue result ↔ (tree_at s.now made ≡ inst (tree_at s.now body) (tree_at s.now by)) }
{
    is_changed(s, &Replacing { by }, body, made)
}

// Each schematic type variable becomes the type of its number, where there is one.
#[derive(Drop)]
struct Typed<'a> {
    types: &'a [TermId],
}

impl<'a> Put for Typed<'a> {
    ghost change_over = { λ v s. typing (trees_at s v.types.now) };

    ghost Ready = { λ v s. HoldTypes s v.types.now };

    fn is_put(&self, s: &Store, e: TermId, depth: usize, made: TermId) -> Option<bool> {
        if s.above_type_variables(e) == 0 {
            return Some(s.same(made, e));
        }
        match s.node(e) {
            Node::TyVar(number) => {
                if number < self.types.len() {
                    Some(s.same(made, self.types[number]))
                } else {
                    Some(s.same(made, e))
                }
            }
            _ => None,
        }
    }
}

/// Whether a tree is `e` with types in the place of its schematic type variables, each by its number.
pub fn is_inst_types(s: &Store, e: TermId, types: &[TermId], made: TermId) -> bool
    requires e_held { Holds s.now e }
    requires types { HoldTypes s.now types.now }
    requires made_held { Holds s.now made }
    ensures { IsTrue result ↔ (tree_at s.now made
        ≡ inst_types (tree_at s.now e) (trees_at s.now types.now)) }
{
    is_changed(s, &Typed { types }, e, made)
}
