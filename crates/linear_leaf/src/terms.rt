// Terms as sums: what a term is at its top, its weight, its value where one atom is 1 and the others are 0, and whether it has an atom.
// They depend on the store; the weighted sum depends on them.
ghost use Rattle.std.specs.Prelude.{◌≡◌, ℕ, ℤ, ◌+◌, ◌*◌, ◌+ℤ◌, ◌*ℤ◌, neg_ℤ, nat_abs, ◌<◌, ◌≤◌, ◌^◌, min, List, IfSome};
ghost use Rattle.std.specs.Option.{option_map};
ghost use Rattle.trees.specs.Tree.{Tree};
ghost use Rattle.trees.specs.Node.{tree_at, Holds};
ghost use Rattle.linear_leaf.specs.Views.{top_of, top_at, PartsBelow, two_top, read_top};
ghost use Rattle.linear_leaf.specs.Linear.{sum_operation, reading, zeros, has_any};
ghost use Rattle.linear_leaf.specs.Valuations.{one_at};

use trees::store::Store;
use trees::{Ints, Node, TermId};

// What a term is at its top.
#[derive(Clone, Copy)]
pub(crate) enum Summand {
    Number(i128),
    Negated(TermId),
    Plus(TermId, TermId),
    Minus(TermId, TermId),
    Times(TermId, TermId),
    Atom,
}

// A function on two arguments.
fn on_two(ints: &Ints, f: usize, a: TermId, b: TermId) -> Summand
    ensures tree { (s : List Tree) → top_at s result
        ≡ two_top (sum_operation ints.now f) (tree_at s a) (tree_at s b) }
    ensures below { (k : ℕ) → a.0 < k → b.0 < k → PartsBelow k result }
{
    if f == ints.add {
        Summand::Plus(a, b)
    } else if f == ints.sub {
        Summand::Minus(a, b)
    } else if f == ints.mul {
        Summand::Times(a, b)
    } else {
        Summand::Atom
    }
}

// What a term is at its top.
fn summand_of(store: &Store, ints: &Ints, e: TermId) -> Summand
    requires { Holds store.now e }
    ensures tree { top_at store.now result ≡ top_of ints.now (tree_at store.now e) }
    ensures below { PartsBelow e.0 result }
{
    match store.node(e) {
        Node::Num(n) => Summand::Number(n),
        Node::Fun(f, _, args, _) => match store.node(args) {
            Node::Cell(a, rest) => match store.node(rest) {
                Node::End => {
                    if f == ints.neg {
                        Summand::Negated(a)
                    } else {
                        Summand::Atom
                    }
                },
                Node::Cell(b, end) => match store.node(end) {
                    Node::End => on_two(ints, f, a, b),
                    _ => Summand::Atom,
                },
                _ => Summand::Atom,
            },
            _ => Summand::Atom,
        },
        _ => Summand::Atom,
    }
}

// What a term is at its top, and so how it is read.
#[tactic(auto, using(crate::proofs::Reading::reading_is))]
pub(crate) fn top_of(store: &Store, ints: &Ints, e: TermId) -> Summand
    requires { Holds store.now e }
    ensures reads { (v : Tree → ℤ) → reading ints.now v (tree_at store.now e)
        ≡ read_top ints.now v (tree_at store.now e) (top_at store.now result) }
    ensures below { PartsBelow e.0 result }
{
    summand_of(store, ints, e)
}

// Whether a term has an atom.
#[tactic(auto, using(crate::proofs::Reading::any_append))]
pub(crate) fn has_atom(store: &Store, ints: &Ints, e: TermId) -> bool
    requires { Holds store.now e }
    ensures { result ≡ has_any (reading ints.now zeros (tree_at store.now e)).atoms }
{
    match top_of(store, ints, e) {
        Summand::Number(_) => false,
        Summand::Negated(a) => has_atom(store, ints, a),
        Summand::Plus(a, b) | Summand::Minus(a, b) | Summand::Times(a, b) => has_atom(
            store, ints, a,
        ) || has_atom(store, ints, b),
        Summand::Atom => true,
    }
}

// The weight of a term, or the greatest number.
#[tactic(auto, using(crate::proofs::Integers::min_mul))]
pub(crate) fn weigh(store: &Store, ints: &Ints, e: TermId) -> u128
    requires { Holds store.now e }
    ensures { result ≡ min (reading ints.now zeros (tree_at store.now e)).weight u128.MAX }
{
    match top_of(store, ints, e) {
        Summand::Number(n) => n.unsigned_abs().max(1),
        Summand::Negated(a) => weigh(store, ints, a),
        Summand::Plus(a, b) | Summand::Minus(a, b) => weigh(store, ints, a).saturating_add(weigh(
            store, ints, b,
        )),
        Summand::Times(a, b) => {
            if has_atom(store, ints, a) && has_atom(store, ints, b) {
                1
            } else {
                weigh(store, ints, a).saturating_mul(weigh(store, ints, b))
            }
        },
        Summand::Atom => 1,
    }
}

// The value of an atom.
#[tactic(auto, using(crate::proofs::Bounds::one_same, crate::proofs::Bounds::one_other))]
fn atom_value(store: &Store, e: TermId, one: Option<TermId>) -> i128
    requires held { Holds store.now e }
    requires one { IfSome one (Holds store.now) }
    ensures { result ≡ one_at (option_map (tree_at store.now) one) (tree_at store.now e) }
{
    match one {
        Some(p) => { if store.same(p, e) { 1 } else { 0 } },
        None => 0,
    }
}

// The negation, sum, difference and product of two values that are small together.
fn minus_one(x: i128) -> i128
    requires { nat_abs x ≤ 2 ^ 126 }
    ensures { result ≡ neg_ℤ x }
{
    -x
}

pub(crate) fn plus(x: i128, y: i128) -> i128
    requires { nat_abs x + nat_abs y ≤ 2 ^ 126 }
    ensures value { result ≡ x +ℤ y }
    ensures within { nat_abs result ≤ nat_abs x + nat_abs y }
{
    x + y
}

pub(crate) fn minus(x: i128, y: i128) -> i128
    requires { nat_abs x + nat_abs y ≤ 2 ^ 126 }
    ensures value { result ≡ x +ℤ neg_ℤ y }
    ensures within { nat_abs result ≤ nat_abs x + nat_abs y }
{
    x - y
}

pub(crate) fn times(x: i128, y: i128) -> i128
    requires { nat_abs x * nat_abs y ≤ 2 ^ 126 }
    ensures { result ≡ x *ℤ y }
{
    x * y
}

// The value of a term where one atom is 1 and the others are 0.
#[tactic(auto, using(crate::proofs::Bounds::value_bound, crate::proofs::Bounds::weight_above, crate::proofs::Bounds::atoms_at, crate::proofs::Integers::mul_le))]
pub(crate) fn value(store: &Store, ints: &Ints, e: TermId, one: Option<TermId>) -> i128
    requires held { Holds store.now e }
    requires one { IfSome one (Holds store.now) }
    requires light { (reading ints.now zeros (tree_at store.now e)).weight ≤ 2 ^ 126 }
    ensures { result ≡ (reading ints.now (one_at (option_map (tree_at store.now) one))
        (tree_at store.now e)).value }
{
    match top_of(store, ints, e) {
        Summand::Number(n) => n,
        Summand::Negated(a) => minus_one(value(store, ints, a, one)),
        Summand::Plus(a, b) => plus(value(store, ints, a, one), value(store, ints, b, one)),
        Summand::Minus(a, b) => minus(value(store, ints, a, one), value(store, ints, b, one)),
        Summand::Times(a, b) => {
            if has_atom(store, ints, a) && has_atom(store, ints, b) {
                atom_value(store, e, one)
            } else {
                times(value(store, ints, a, one), value(store, ints, b, one))
            }
        },
        Summand::Atom => atom_value(store, e, one),
    }
}
