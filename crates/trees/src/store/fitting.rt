//! Whether a node may be added: its children are held and of fitting sorts.
//! It asks three queries alone, which the store answers and its reference too.
#![tactic(auto)]

ghost use Rattle.std.specs.Prelude.{◌≡◌, ◌↔◌, ◌<◌, ◌⊎◌, List, length, IsTrue};
ghost use Rattle.trees.specs.Node.{tree_at, node_tree, parts_of, Holds, AreBelow};
ghost use Rattle.trees.specs.Tree.{Tree, head_of, HCell};
ghost use Rattle.trees.specs.Sorts.{Fits, IsList, IsExpression, sort_of, first_sort};

use crate::{Node, Parts, Sort, TermId};

/// What is asked of trees by number to tell which nodes may be added.
pub trait Numbered {
    /// The trees by number.
    ghost trees: { Self → List Tree };

    /// Whether a tree has this number.
    fn has(&self, id: TermId) -> bool
        ensures { IsTrue result ↔ Holds (trees self.now) id };

    /// The node of a number.
    fn node_at(&self, id: TermId) -> Node
        requires { Holds (trees self.now) id }
        ensures tree { tree_at (trees self.now) id ≡ node_tree (trees self.now) result }
        ensures below { AreBelow id.0 (parts_of result) };

    /// What sort of thing a tree is.
    fn sort_at(&self, id: TermId) -> Sort
        requires { Holds (trees self.now) id }
        ensures { result ≡ sort_of (tree_at (trees self.now) id) };
}

// Whether two sorts are the same.
fn same_sort(a: Sort, b: Sort) -> bool
    ensures { IsTrue result ↔ (a ≡ b) }
{
    a == b
}

// A term or a formula.
fn is_expression(sort: Sort) -> bool
    ensures { IsTrue result ↔ IsExpression sort }
{
    matches!(sort, Sort::Term | Sort::Formula)
}

/// Whether the children of a node are held and of fitting sorts, so that it may be added.
pub fn accepts<S: Numbered>(s: &S, node: Node) -> bool
    ensures { IsTrue result ↔ (AreBelow (length (S.trees s.now)) (parts_of node)
        × Fits (node_tree (S.trees s.now) node)) }
{
    holds_parts(s, node.parts()) && fits(s, node)
}

fn holds_parts<S: Numbered>(s: &S, parts: Parts) -> bool
    ensures { IsTrue result ↔ AreBelow (length (S.trees s.now)) parts }
{
    match parts {
        Parts::None => true,
        Parts::One(a) => s.has(a),
        Parts::Two(a, b) => s.has(a) && s.has(b),
        Parts::Three(a, b, c) => s.has(a) && s.has(b) && s.has(c),
    }
}

// Whether a tree is of a sort.
fn is<S: Numbered>(s: &S, id: TermId, sort: Sort) -> bool
    requires { Holds (S.trees s.now) id }
    ensures { IsTrue result ↔ (sort_of (tree_at (S.trees s.now) id) ≡ sort) }
{
    same_sort(s.sort_at(id), sort)
}

// Whether a tree is a list of trees of a sort.
fn is_list<S: Numbered>(s: &S, id: TermId, sort: Sort) -> bool
    requires { Holds (S.trees s.now) id }
    ensures { IsTrue result ↔ IsList sort (tree_at (S.trees s.now) id) }
{
    is(s, id, Sort::List) && starts_with(s, id, sort)
}

// Whether the first member of a list, where it has one, is of a sort.
fn starts_with<S: Numbered>(s: &S, id: TermId, sort: Sort) -> bool
    requires { Holds (S.trees s.now) id }
    ensures { IsTrue result ↔ ((first_sort (tree_at (S.trees s.now) id) ≡ None)
        ⊎ (first_sort (tree_at (S.trees s.now) id) ≡ Some sort)) }
{
    match s.node_at(id) {
        Node::Cell(first, _) => is(s, first, sort),
        _ => true,
    }
}

fn has_branch<S: Numbered>(s: &S, id: TermId) -> bool
    requires { Holds (S.trees s.now) id }
    ensures { IsTrue result ↔ (head_of (tree_at (S.trees s.now) id) ≡ HCell) }
{
    matches!(s.node_at(id), Node::Cell(_, _))
}

fn fits<S: Numbered>(s: &S, node: Node) -> bool
    requires { AreBelow (length (S.trees s.now)) (parts_of node) }
    ensures { IsTrue result ↔ Fits (node_tree (S.trees s.now) node) }
{
    match node {
        Node::TyVar(_) | Node::TyRigid(_) | Node::End | Node::Num(_) | Node::True | Node::False =>
            true,
        Node::TyApp(_, a) => is_list(s, a, Sort::Kind),
        Node::Bound(i, a) => is(s, a, Sort::Kind) && i < usize::MAX,
        Node::Param(_, a) | Node::PatAny(a) | Node::PatVar(a) => is(s, a, Sort::Kind),
        Node::Not(a) => is(s, a, Sort::Formula),
        Node::PatAlias(a) => is(s, a, Sort::Pattern),
        Node::Cell(a, b) => !is(s, a, Sort::List) && is_list(s, b, s.sort_at(a)),
        Node::Pred(_, a, b) => is_list(s, a, Sort::Kind) && is_list(s, b, Sort::Term),
        Node::Eq(a, b) => is(s, a, Sort::Term) && is(s, b, Sort::Term),
        Node::Join(_, a, b) => is(s, a, Sort::Formula) && is(s, b, Sort::Formula),
        Node::Forall(a, b) | Node::Exists(a, b) => is(s, a, Sort::Kind) && is(s, b, Sort::Formula),
        Node::Let(a, b) => is(s, a, Sort::Term) && is_expression(s.sort_at(b)),
        Node::Case(a, b) => is(s, a, Sort::Term) && is_list(s, b, Sort::Branch) && has_branch(s, b),
        Node::Arm(a, b) => is(s, a, Sort::Pattern) && is_expression(s.sort_at(b)),
        Node::Fun(_, a, b, c) => is_list(s, a, Sort::Kind)
            && is_list(s, b, Sort::Term)
            && is(s, c, Sort::Kind),
        Node::PatCon(_, a, b, c) => is_list(s, a, Sort::Kind)
            && is_list(s, b, Sort::Pattern)
            && is(s, c, Sort::Kind),
        Node::If(a, b, c) => is(s, a, Sort::Formula)
            && is_expression(s.sort_at(b))
            && is(s, c, s.sort_at(b)),
    }
}
