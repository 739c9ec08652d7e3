// Shapes of the formulas that rules add: trees that the store need not hold, told without making them.
// They depend on closed terms; the rows of the table depend on them.
ghost use Rattle.std.specs.Prelude.{◌≡◌, ◌↔◌, All, IsTrue, List};
ghost use Rattle.trees.specs.Tree.{Tree};
ghost use Rattle.trees.specs.Node.{tree_at, Holds};
ghost use Rattle.trees.specs.Binding.{inst, inst_types};
ghost use Rattle.tasks.specs.Task.{neg};
ghost use Rattle.tasks.specs.Meaning.{trees_at};
ghost use Rattle.rules.specs.Terms.{term_at, TermHeld};
ghost use Rattle.rules.specs.Forms.{join, equal, alike};

use crate::term::Term;
use tasks::typed_trees::{Types, is_instance};
use trees::binders::is_changed;
use trees::store::Store;
use trees::{Node, Op, Sort, TermId};

/// What tells whether a tree is a certain one, which the store need not hold.
pub trait Shape {
    /// The tree, over a store.
    ghost tree: { Self → List Tree → Tree };

    /// The numbers in it are held.
    ghost IsHeld: { Self → List Tree → Type 0 };

    /// Whether a tree is this one.
    fn is(&self, store: &Store, id: TermId) -> bool
        requires ready { IsHeld self.now store.now }
        requires held { Holds store.now id }
        ensures { IsTrue result ↔ (tree_at store.now id ≡ tree self.now store.now) };
}

// A tree of the store.
impl Shape for TermId {
    ghost tree = { λ v s. tree_at s v };

    ghost IsHeld = { λ v s. Holds s v };

    fn is(&self, store: &Store, id: TermId) -> bool {
        store.same(id, *self)
    }
}

/// A tree with a closed term for its variable 0.
#[derive(Clone, Copy)]
pub struct Instance {
    pub body: TermId,
    pub term: Term,
}

impl Shape for Instance {
    ghost tree = { λ v s. inst (tree_at s v.body) (term_at s v.term) };

    ghost IsHeld = { λ v s. Holds s v.body × TermHeld s v.term };

    fn is(&self, store: &Store, id: TermId) -> bool {
        is_changed(store, &self.term, self.body, id)
    }
}

/// A tree at types.
#[derive(Clone, Copy)]
pub struct AtTypes<'a> {
    pub e: TermId,
    pub types: &'a [TermId],
}

impl<'a> Shape for AtTypes<'a> {
    ghost tree = { λ v s. inst_types (tree_at s v.e) (trees_at s v.types.now) };

    ghost IsHeld = { λ v s. Holds s v.e × All (Holds s) v.types.now };

    fn is(&self, store: &Store, id: TermId) -> bool {
        is_instance(store, self.e, Types::Given(self.types), id)
    }
}

/// A negation.
#[derive(Clone, Copy)]
pub struct Not<A>(pub A);

impl<A: Shape> Shape for Not<A> {
    ghost tree = { λ v s. neg (A.tree v.0 s) };

    ghost IsHeld = { λ v s. A.IsHeld v.0 s };

    fn is(&self, store: &Store, id: TermId) -> bool {
        match store.node(id) {
            Node::Not(a) => self.0.is(store, a),
            _ => false,
        }
    }
}

/// A connective.
#[derive(Clone, Copy)]
pub struct Join<A, B> {
    pub op: Op,
    pub left: A,
    pub right: B,
}

impl<A: Shape, B: Shape> Shape for Join<A, B> {
    ghost tree = { λ v s. join v.op (A.tree v.left s) (B.tree v.right s) };

    ghost IsHeld = { λ v s. A.IsHeld v.left s × B.IsHeld v.right s };

    fn is(&self, store: &Store, id: TermId) -> bool {
        match store.node(id) {
            Node::Join(op, a, b) => op == self.op
                && self.left.is(store, a)
                && self.right.is(store, b),
            _ => false,
        }
    }
}

/// An equation.
#[derive(Clone, Copy)]
pub struct Equal<A, B>(pub A, pub B);

impl<A: Shape, B: Shape> Shape for Equal<A, B> {
    ghost tree = { λ v s. equal (A.tree v.0 s) (B.tree v.1 s) };

    ghost IsHeld = { λ v s. A.IsHeld v.0 s × B.IsHeld v.1 s };

    fn is(&self, store: &Store, id: TermId) -> bool {
        match store.node(id) {
            Node::Eq(a, b) => self.0.is(store, a) && self.1.is(store, b),
            _ => false,
        }
    }
}

/// An expression of the store is alike another: `=` for terms and `<->` for formulas.
#[derive(Clone, Copy)]
pub struct Alike<A> {
    pub e: TermId,
    pub other: A,
}

impl<A: Shape> Shape for Alike<A> {
    ghost tree = { λ v s. alike (tree_at s v.e) (A.tree v.other s) };

    ghost IsHeld = { λ v s. Holds s v.e × A.IsHeld v.other s };

    fn is(&self, store: &Store, id: TermId) -> bool {
        if store.sort(self.e) == Sort::Term {
            match store.node(id) {
                Node::Eq(a, b) => store.same(a, self.e) && self.other.is(store, b),
                _ => false,
            }
        } else {
            match store.node(id) {
                Node::Join(op, a, b) => op == Op::Iff
                    && store.same(a, self.e)
                    && self.other.is(store, b),
                _ => false,
            }
        }
    }
}
