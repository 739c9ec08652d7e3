// What formulas may be in a weighted sum.
// It depends on the store; the test of a weighted sum depends on it.
ghost use Rattle.std.specs.Prelude.{◌≡◌, ◌↔◌, List, All, true, false, IsTrue, IfSome};
ghost use Rattle.std.specs.Option.{option_map};
ghost use Rattle.trees.specs.Tree.{Tree};
ghost use Rattle.trees.specs.Node.{tree_at, Holds};
ghost use Rattle.linear_leaf.specs.Linear.{comparison_bound, uncompared, pair_of, bounded, bounded_at, IsRightMultiplier, AreUses};
ghost use Rattle.step_reading.specs.shared_sums.Uses.{bounded_of, IsBoundHeld, sequent_of_leaf, IsSequentHeld, pair_trees};

use trees::store::Store;
use trees::{Ints, Node, TermId};

// `left - right`, and 1 where it is strict, is at most 0, or is 0.
#[derive(Clone, Copy)]
pub(crate) struct Bound {
    pub left: TermId,
    pub right: TermId,
    pub strict: bool,
    pub equation: bool,
}

// A sequent.
#[derive(Clone, Copy)]
pub(crate) struct Leaf<'a> {
    pub store: &'a Store,
    pub ints: &'a Ints,
    pub sequent: &'a [TermId],
}

fn less_bound(a: TermId, b: TermId) -> Bound
    ensures { result ≡ record { left = a; right = b; strict = true; equation = false } }
{
    Bound {
        left: a,
        right: b,
        strict: true,
        equation: false,
    }
}

fn at_most(a: TermId, b: TermId) -> Bound
    ensures { result ≡ record { left = a; right = b; strict = false; equation = false } }
{
    Bound {
        left: a,
        right: b,
        strict: false,
        equation: false,
    }
}

// A comparison.
fn comparison_bound(ints: &Ints, p: usize, a: TermId, b: TermId) -> Option<Bound>
    ensures tree { (s : List Tree) → option_map (bounded_of s) result
        ≡ comparison_bound ints.now p (tree_at s a) (tree_at s b) }
    ensures held { (s : List Tree) → Holds s a → Holds s b → IfSome result (IsBoundHeld s) }
{
    if p == ints.lt {
        Some(less_bound(a, b))
    } else if p == ints.le {
        Some(at_most(a, b))
    } else if p == ints.gt {
        Some(less_bound(b, a))
    } else if p == ints.ge {
        Some(at_most(b, a))
    } else {
        None
    }
}

// The negation of a comparison.
fn negation_bound(ints: &Ints, p: usize, a: TermId, b: TermId) -> Option<Bound>
    ensures tree { (s : List Tree) → option_map (bounded_of s) result
        ≡ uncompared ints.now p (tree_at s a) (tree_at s b) }
    ensures held { (s : List Tree) → Holds s a → Holds s b → IfSome result (IsBoundHeld s) }
{
    if p == ints.lt {
        Some(at_most(b, a))
    } else if p == ints.le {
        Some(less_bound(b, a))
    } else if p == ints.gt {
        Some(at_most(a, b))
    } else if p == ints.ge {
        Some(less_bound(a, b))
    } else {
        None
    }
}

// The members of a list of two.
fn pair(store: &Store, list: TermId) -> Option<(TermId, TermId)>
    requires { Holds store.now list }
    ensures tree { option_map (pair_trees store.now) result ≡ pair_of (tree_at store.now list) }
    ensures held { IfSome result (λ p. Holds store.now p.0 × Holds store.now p.1) }
{
    match store.node(list) {
        Node::Cell(a, rest) => match store.node(rest) {
            Node::Cell(b, end) => match store.node(end) {
                Node::End => Some((a, b)),
                _ => None,
            },
            _ => None,
        },
        _ => None,
    }
}

// A formula that may be in the sum.
fn formula_bound(store: &Store, ints: &Ints, f: TermId) -> Option<Bound>
    requires { Holds store.now f }
    ensures tree { option_map (bounded_of store.now) result
        ≡ bounded ints.now (tree_at store.now f) }
    ensures held { IfSome result (IsBoundHeld store.now) }
{
    match store.node(f) {
        Node::Eq(a, b) => Some(Bound {
            left: a,
            right: b,
            strict: false,
            equation: true,
        }),
        Node::Pred(p, _, args) => {
            let (a, b) = pair(store, args)?;
            comparison_bound(ints, p, a, b)
        },
        Node::Not(inner) => match store.node(inner) {
            Node::Pred(p, _, args) => {
                let (a, b) = pair(store, args)?;
                negation_bound(ints, p, a, b)
            },
            _ => None,
        },
        _ => None,
    }
}

/// The formula at a place, where it may be in the sum.
pub(crate) fn bounded_at(x: &Leaf<'_>, place: usize) -> Option<Bound>
    requires { IsSequentHeld x.now }
    ensures tree { option_map (bounded_of x.now.store.now) result
        ≡ bounded_at x.now.ints.now (sequent_of_leaf x.now) place }
    ensures held { IfSome result (IsBoundHeld x.now.store.now) }
{
    match x.sequent.get(place) {
        Some(f) => formula_bound(x.store, x.ints, *f),
        None => None,
    }
}

// Whether a formula may have a multiplier.
fn is_use(store: &Store, d: Bound, multiplier: i128) -> bool
    requires { IsBoundHeld store.now d }
    ensures { IsTrue result ↔ IsRightMultiplier (bounded_of store.now d) multiplier }
{
    if d.equation {
        match store.ty(d.left) {
            Some(ty) => store.same(ty, store.int_type()),
            None => false,
        }
    } else {
        multiplier >= 0
    }
}

/// Whether each place has a formula that may be in the sum.
pub(crate) fn are_uses(x: &Leaf<'_>, uses: &[(usize, i128)]) -> bool
    requires { IsSequentHeld x.now }
    ensures { IsTrue result ↔ AreUses x.now.ints.now (sequent_of_leaf x.now) uses.now }
{
    match uses.split_first() {
        Some((first, more)) => match bounded_at(x, first.0) {
            Some(d) => is_use(x.store, d, first.1) && are_uses(x, more),
            None => false,
        },
        None => true,
    }
}
