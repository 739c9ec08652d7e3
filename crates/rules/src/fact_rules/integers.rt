// The rows of integers: `linear`, `trichotomy` and `bound`.
// They depend on what premises add and on the linear leaf; the checker of a step depends on them.
ghost use Rattle.std.specs.Prelude.{◌↔◌, [], ◌∷◌, pos, ◌-◌, ◌^◌, ◌+ℤ◌, ◌<ℤ◌, IsTrue};
ghost use Rattle.trees.specs.Tree.{Leaf, HNum};
ghost use Rattle.trees.specs.Node.{tree_at, Holds};
ghost use Rattle.rules.specs.Trees.{RLinear, RTrichotomy, RBound};
ghost use Rattle.rules.specs.Forms.{comparison};
ghost use Rattle.rules.specs.Rows.{Adds, DeclaresFour, DeclaresInts};
ghost use Rattle.rules.specs.Meaning.{task_of, sequent_of, premises_of, TriedHeld, RowOf};

use crate::{Equal, Shape, Tried, adds_each, adds_none, has_type, is_end, is_wider, premise};
use linear_leaf::closes_linear;
use trees::store::Store;
use trees::{Ints, Node, TermId};

// A literal.
#[derive(Clone, Copy)]
struct Number(i128);

impl Shape for Number {
    ghost tree = { λ v s. Leaf (HNum v.0) };

    ghost IsHeld = { λ v s. Unit {0} };

    fn is(&self, store: &Store, id: TermId) -> bool {
        match store.node(id) {
            Node::Num(n) => n == self.0,
            _ => false,
        }
    }
}

// A predicate of two numbers.
#[derive(Clone, Copy)]
struct Compared<A, B> {
    symbol: usize,
    left: A,
    right: B,
}

impl<A: Shape, B: Shape> Shape for Compared<A, B> {
    ghost tree = { λ v s. comparison v.symbol (A.tree v.left s) (B.tree v.right s) };

    ghost IsHeld = { λ v s. A.IsHeld v.left s × B.IsHeld v.right s };

    fn is(&self, store: &Store, id: TermId) -> bool {
        match store.node(id) {
            Node::Pred(p, types, args) => {
                if p != self.symbol || !is_end(store, types) {
                    return false;
                }
                match store.node(args) {
                    Node::Cell(a, rest) => match store.node(rest) {
                        Node::Cell(b, end) => self.left.is(store, a)
                            && self.right.is(store, b)
                            && is_end(store, end),
                        _ => false,
                    },
                    _ => false,
                }
            },
            _ => false,
        }
    }
}

// Whether the task declares four symbols.
fn declares_four(x: &Tried<'_>, a: usize, b: usize, c: usize, d: usize) -> bool
    requires { TriedHeld x.now }
    ensures { IsTrue result ↔ DeclaresFour (task_of x.now) a b c d }
{
    x.look.declares(x.store, a)
        && x.look.declares(x.store, b)
        && x.look.declares(x.store, c)
        && x.look.declares(x.store, d)
}

// Whether the task declares the symbols of int.Int.
fn are_declared(x: &Tried<'_>, ints: Ints) -> bool
    requires { TriedHeld x.now }
    ensures { IsTrue result ↔ DeclaresInts (task_of x.now) ints }
{
    declares_four(x, ints.neg, ints.add, ints.sub, ints.mul)
        && declares_four(x, ints.lt, ints.le, ints.gt, ints.ge)
}

/// A sum of formulas that can't hold.
pub fn linear(x: &Tried<'_>, uses: &[(usize, i128)]) -> bool
    requires { TriedHeld x.now }
    ensures { IsTrue result ↔ RowOf x.now (RLinear uses.now) }
{
    match x.look.task.sig.ints {
        Some(ints) => are_declared(x, ints)
            && closes_linear(x.store, &ints, x.sequent, uses)
            && adds_none(x),
        None => false,
    }
}

// Whether there are three premises, each of which has one formula after the sequent.
fn adds_three<A: Shape, B: Shape, C: Shape>(x: &Tried<'_>, a: &A, b: &B, c: &C) -> bool
    requires tried { TriedHeld x.now }
    requires a_held { A.IsHeld a.now x.now.store.now }
    requires b_held { B.IsHeld b.now x.now.store.now }
    requires c_held { C.IsHeld c.now x.now.store.now }
    ensures { IsTrue result ↔ Adds (sequent_of x.now) (premises_of x.now)
        ((A.tree a.now x.now.store.now ∷ []) ∷ (B.tree b.now x.now.store.now ∷ []) ∷
        (C.tree c.now x.now.store.now ∷ []) ∷ []) }
{
    x.premises.len() == 3
        && is_wider(x.store, premise(x, 0), x.sequent, a)
        && is_wider(x.store, premise(x, 1), x.sequent, b)
        && is_wider(x.store, premise(x, 2), x.sequent, c)
}

/// Two integers compared.
pub fn trichotomy(x: &Tried<'_>, a: TermId, b: TermId) -> bool
    requires tried { TriedHeld x.now }
    requires a_held { Holds x.now.store.now a }
    requires b_held { Holds x.now.store.now b }
    ensures { IsTrue result ↔ RowOf x.now (RTrichotomy (tree_at x.now.store.now a)
        (tree_at x.now.store.now b)) }
{
    let int = x.store.int_type();
    if !has_type(x.store, a, int) || !has_type(x.store, b, int) {
        return false;
    }
    match x.look.task.sig.ints {
        Some(ints) => {
            if !are_declared(x, ints) {
                return false;
            }
            adds_three(
                x,
                &Compared {
                    symbol: ints.lt,
                    left: a,
                    right: b,
                },
                &Equal(a, b),
                &Compared {
                    symbol: ints.lt,
                    left: b,
                    right: a,
                },
            )
        },
        None => false,
    }
}

// Whether there are two premises, of which one has an integer at most a literal, and one at least the next one.
fn adds_bounds(x: &Tried<'_>, ints: Ints, t: TermId, n: i128) -> bool
    requires tried { TriedHeld x.now }
    requires held { Holds x.now.store.now t }
    requires below { n <ℤ pos (2 ^ 127 - 1) }
    ensures { IsTrue result ↔ Adds (sequent_of x.now) (premises_of x.now)
        ((comparison ints.le (tree_at x.now.store.now t) (Leaf (HNum n)) ∷ [])
        ∷ (comparison ints.le (Leaf (HNum (n +ℤ pos 1))) (tree_at x.now.store.now t) ∷ []) ∷ []) }
{
    adds_each(
        x,
        &Compared {
            symbol: ints.le,
            left: t,
            right: Number(n),
        },
        &Compared {
            symbol: ints.le,
            left: Number(n + 1),
            right: t,
        },
    )
}

/// An integer at most a literal, or at least the next one.
pub fn bound(x: &Tried<'_>, t: TermId, n: i128) -> bool
    requires tried { TriedHeld x.now }
    requires held { Holds x.now.store.now t }
    ensures { IsTrue result ↔ RowOf x.now (RBound (tree_at x.now.store.now t) n) }
{
    if n == i128::MAX || !has_type(x.store, t, x.store.int_type()) {
        return false;
    }
    match x.look.task.sig.ints {
        Some(ints) => are_declared(x, ints) && adds_bounds(x, ints, t, n),
        None => false,
    }
}
