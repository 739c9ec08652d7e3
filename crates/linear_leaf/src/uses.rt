// The weighted sum: what formulas may be in it, its weight, its value where one atom is 1, and whether its atoms cancel.
// They depend on terms as sums.
ghost use Rattle.std.specs.Prelude.{◌≡◌, ◌↔◌, ℕ, ℤ, ◌≤◌, ◌^◌, min, map, nat_abs, List, All, Some, true, false, IsTrue, IfSome};
ghost use Rattle.std.specs.Option.{option_map};
ghost use Rattle.trees.specs.Tree.{Tree};
ghost use Rattle.trees.specs.Node.{tree_at, Holds};
ghost use Rattle.trees.specs.Facts.{Each};
ghost use Rattle.linear_leaf.specs.Linear.{comparison_bound, uncompared, addend, pair_of, bounded, bounded_at, reading, difference, heft, zeros, IsRightMultiplier, AreUses, part, total, weight_of, weight, ClosesLinear};
ghost use Rattle.linear_leaf.specs.Valuations.{one_at, Cancels, part_atoms, use_atoms};
ghost use Rattle.linear_leaf.specs.Uses.{bound_at, BoundHeld, leaf_sequent, LeafHeld, IsLight, constant_of, CancelsIn, pair_at};

use crate::terms::{Summand, has_atom, minus, plus, times, top_of, value, weigh};
use trees::store::Store;
use trees::{Ints, Node, TermId};

// `left - right`, and 1 where it is strict, is at most 0, or is 0.
#[derive(Clone, Copy)]
struct Bound {
    left: TermId,
    right: TermId,
    strict: bool,
    equation: bool,
}

// A sequent, and the formulas that are used with their multipliers.
#[derive(Clone, Copy)]
struct Leaf<'a> {
    store: &'a Store,
    ints: &'a Ints,
    sequent: &'a [TermId],
    uses: &'a [(usize, i128)],
}

fn less_bound(a: TermId, b: TermId) -> Bound
    ensures { result ≡ record { left = a; right = b; strict = true; equation = false } }
{
    Bound {
        left: a,
        right: b,
        strict: true,
        equation: false,
    }
}

fn at_most(a: TermId, b: TermId) -> Bound
    ensures { result ≡ record { left = a; right = b; strict = false; equation = false } }
{
    Bound {
        left: a,
        right: b,
        strict: false,
        equation: false,
    }
}

// A comparison.
fn comparison_bound(ints: &Ints, p: usize, a: TermId, b: TermId) -> Option<Bound>
    ensures tree { (s : List Tree) → option_map (bound_at s) result
        ≡ comparison_bound ints.now p (tree_at s a) (tree_at s b) }
    ensures held { (s : List Tree) → Holds s a → Holds s b → IfSome result (BoundHeld s) }
{
    if p == ints.lt {
        Some(less_bound(a, b))
    } else if p == ints.le {
        Some(at_most(a, b))
    } else if p == ints.gt {
        Some(less_bound(b, a))
    } else if p == ints.ge {
        Some(at_most(b, a))
    } else {
        None
    }
}

// The negation of a comparison.
fn negation_bound(ints: &Ints, p: usize, a: TermId, b: TermId) -> Option<Bound>
    ensures tree { (s : List Tree) → option_map (bound_at s) result
        ≡ uncompared ints.now p (tree_at s a) (tree_at s b) }
    ensures held { (s : List Tree) → Holds s a → Holds s b → IfSome result (BoundHeld s) }
{
    if p == ints.lt {
        Some(at_most(b, a))
    } else if p == ints.le {
        Some(less_bound(b, a))
    } else if p == ints.gt {
        Some(at_most(a, b))
    } else if p == ints.ge {
        Some(less_bound(a, b))
    } else {
        None
    }
}

// The members of a list of two.
fn pair(store: &Store, list: TermId) -> Option<(TermId, TermId)>
    requires { Holds store.now list }
    ensures tree { option_map (pair_at store.now) result ≡ pair_of (tree_at store.now list) }
    ensures held { IfSome result (λ p. Holds store.now p.0 × Holds store.now p.1) }
{
    match store.node(list) {
        Node::Cell(a, rest) => match store.node(rest) {
            Node::Cell(b, end) => match store.node(end) {
                Node::End => Some((a, b)),
                _ => None,
            },
            _ => None,
        },
        _ => None,
    }
}

// A formula that may be in the sum.
fn formula_bound(store: &Store, ints: &Ints, f: TermId) -> Option<Bound>
    requires { Holds store.now f }
    ensures tree { option_map (bound_at store.now) result ≡ bounded ints.now (tree_at store.now f) }
    ensures held { IfSome result (BoundHeld store.now) }
{
    match store.node(f) {
        Node::Eq(a, b) => Some(Bound {
            left: a,
            right: b,
            strict: false,
            equation: true,
        }),
        Node::Pred(p, _, args) => {
            let (a, b) = pair(store, args)?;
            comparison_bound(ints, p, a, b)
        },
        Node::Not(inner) => match store.node(inner) {
            Node::Pred(p, _, args) => {
                let (a, b) = pair(store, args)?;
                negation_bound(ints, p, a, b)
            },
            _ => None,
        },
        _ => None,
    }
}

// The formula at a place, where it may be in the sum.
fn bounded_at(x: &Leaf<'_>, place: usize) -> Option<Bound>
    requires { LeafHeld x.now }
    ensures tree { option_map (bound_at x.now.store.now) result
        ≡ bounded_at x.now.ints.now (leaf_sequent x.now) place }
    ensures held { IfSome result (BoundHeld x.now.store.now) }
{
    match x.sequent.get(place) {
        Some(f) => formula_bound(x.store, x.ints, *f),
        None => None,
    }
}

// Whether a formula may have a multiplier.
fn is_use(store: &Store, d: Bound, multiplier: i128) -> bool
    requires { BoundHeld store.now d }
    ensures { IsTrue result ↔ IsRightMultiplier (bound_at store.now d) multiplier }
{
    if d.equation {
        match store.ty(d.left) {
            Some(ty) => store.same(ty, store.int_type()),
            None => false,
        }
    } else {
        multiplier >= 0
    }
}

// Whether each place has a formula that may be in the sum.
fn are_uses(x: &Leaf<'_>, uses: &[(usize, i128)]) -> bool
    requires { LeafHeld x.now }
    ensures { IsTrue result ↔ AreUses x.now.ints.now (leaf_sequent x.now) uses.now }
{
    match uses.split_first() {
        Some((first, more)) => match bounded_at(x, first.0) {
            Some(d) => is_use(x.store, d, first.1) && are_uses(x, more),
            None => false,
        },
        None => true,
    }
}

// The weight of a formula, or the greatest number.
#[tactic(auto, using(crate::proofs::Integers::min_add))]
fn weigh_both(x: &Leaf<'_>, d: Bound) -> u128
    requires { BoundHeld x.now.store.now d }
    ensures { result ≡ min (heft x.now.ints.now (bound_at x.now.store.now d)) u128.MAX }
{
    weigh(x.store, x.ints, d.left)
        .saturating_add(weigh(x.store, x.ints, d.right))
        .saturating_add(2)
}

// The weight of a formula with a multiplier, or the greatest number.
#[tactic(auto, using(crate::proofs::Integers::min_times))]
fn weigh_part(x: &Leaf<'_>, d: Bound, multiplier: i128) -> u128
    requires { BoundHeld x.now.store.now d }
    ensures { result ≡ min (weight_of x.now.ints.now multiplier
        (Some (bound_at x.now.store.now d))) u128.MAX }
{
    multiplier.unsigned_abs().saturating_mul(weigh_both(x, d))
}

// The weight of the sum, or the greatest number.
fn weigh_all(x: &Leaf<'_>, uses: &[(usize, i128)]) -> u128
    requires { LeafHeld x.now }
    ensures { result ≡ min (weight x.now.ints.now (leaf_sequent x.now) uses.now) u128.MAX }
{
    match uses.split_first() {
        Some((first, more)) => match bounded_at(x, first.0) {
            Some(d) => weigh_part(x, d, first.1).saturating_add(weigh_all(x, more)),
            None => weigh_all(x, more),
        },
        None => 0,
    }
}

fn addend(strict: bool) -> i128
    ensures value { result ≡ addend strict }
    ensures within { nat_abs result ≤ 1 }
{
    if strict { 1 } else { 0 }
}

// What is at most 0, or is 0.
#[tactic(auto, using(crate::proofs::Bounds::value_bound, crate::proofs::Totals::difference_bound))]
fn difference(x: &Leaf<'_>, d: Bound, one: Option<TermId>) -> i128
    requires held { BoundHeld x.now.store.now d }
    requires one { IfSome one (Holds x.now.store.now) }
    requires light { heft x.now.ints.now (bound_at x.now.store.now d) ≤ 2 ^ 126 }
    ensures value { result ≡ difference x.now.ints.now
        (one_at (option_map (tree_at x.now.store.now) one)) (bound_at x.now.store.now d) }
    ensures within { nat_abs result ≤ heft x.now.ints.now (bound_at x.now.store.now d) }
{
    let left = value(x.store, x.ints, d.left, one);
    let right = value(x.store, x.ints, d.right, one);
    plus(minus(left, right), addend(d.strict))
}

// A formula's share of the sum.
#[tactic(auto, using(crate::proofs::Totals::heft_light, crate::proofs::Totals::times_light, crate::proofs::Totals::part_bound))]
fn part_of(x: &Leaf<'_>, d: Bound, multiplier: i128, one: Option<TermId>) -> i128
    requires held { BoundHeld x.now.store.now d }
    requires one { IfSome one (Holds x.now.store.now) }
    requires light { weight_of x.now.ints.now multiplier (Some (bound_at x.now.store.now d))
        ≤ 2 ^ 126 }
    ensures value { result ≡ part x.now.ints.now
        (one_at (option_map (tree_at x.now.store.now) one)) multiplier
        (Some (bound_at x.now.store.now d)) }
    ensures within { nat_abs result ≤ weight_of x.now.ints.now multiplier
        (Some (bound_at x.now.store.now d)) }
{
    if multiplier == 0 {
        return 0;
    }
    let both = difference(x, d, one);
    times(multiplier, both)
}

// A formula's share of the sum, which is 0 where there is none.
fn part(x: &Leaf<'_>, d: Option<Bound>, multiplier: i128, one: Option<TermId>) -> i128
    requires held { IfSome d (BoundHeld x.now.store.now) }
    requires one { IfSome one (Holds x.now.store.now) }
    requires light { weight_of x.now.ints.now multiplier (option_map (bound_at x.now.store.now) d)
        ≤ 2 ^ 126 }
    ensures value { result ≡ part x.now.ints.now
        (one_at (option_map (tree_at x.now.store.now) one)) multiplier
        (option_map (bound_at x.now.store.now) d) }
    ensures within { nat_abs result ≤ weight_of x.now.ints.now multiplier
        (option_map (bound_at x.now.store.now) d) }
{
    match d {
        Some(bound) => part_of(x, bound, multiplier, one),
        None => 0,
    }
}

// The weighted sum.
#[tactic(auto, using(crate::proofs::Totals::total_bound))]
fn total(x: &Leaf<'_>, uses: &[(usize, i128)], one: Option<TermId>) -> i128
    requires held { LeafHeld x.now }
    requires one { IfSome one (Holds x.now.store.now) }
    requires light { weight x.now.ints.now (leaf_sequent x.now) uses.now ≤ 2 ^ 126 }
    ensures value { result ≡ total x.now.ints.now (leaf_sequent x.now)
        (one_at (option_map (tree_at x.now.store.now) one)) uses.now }
{
    match uses.split_first() {
        Some((first, more)) => plus(
            part(x, bounded_at(x, first.0), first.1, one),
            total(x, more, one),
        ),
        None => 0,
    }
}

// Whether the sum doesn't change where an atom is 1.
fn cancels(x: &Leaf<'_>, atom: TermId, constant: i128) -> bool
    requires held { LeafHeld x.now }
    requires atom_held { Holds x.now.store.now atom }
    requires light { IsLight x.now }
    requires constant { constant ≡ constant_of x.now }
    ensures { IsTrue result ↔ CancelsIn x.now (tree_at x.now.store.now atom) }
{
    total(x, x.uses, Some(atom)) == constant
}

// Whether it doesn't change where any one of a term's atoms is 1.
#[tactic(auto, using(crate::proofs::Closing::each_append))]
fn all_cancel(x: &Leaf<'_>, e: TermId, constant: i128) -> bool
    requires held { LeafHeld x.now }
    requires e_held { Holds x.now.store.now e }
    requires light { IsLight x.now }
    requires constant { constant ≡ constant_of x.now }
    ensures { IsTrue result ↔ Each (CancelsIn x.now)
        (reading x.now.ints.now zeros (tree_at x.now.store.now e)).atoms }
{
    match top_of(x.store, x.ints, e) {
        Summand::Number(_) => true,
        Summand::Negated(a) => all_cancel(x, a, constant),
        Summand::Plus(a, b) | Summand::Minus(a, b) => all_cancel(x, a, constant)
            && all_cancel(x, b, constant),
        Summand::Times(a, b) => {
            if has_atom(x.store, x.ints, a) && has_atom(x.store, x.ints, b) {
                cancels(x, e, constant)
            } else {
                all_cancel(x, a, constant) && all_cancel(x, b, constant)
            }
        },
        Summand::Atom => cancels(x, e, constant),
    }
}

// Whether it doesn't change where any one of the used formulas' atoms is 1.
#[tactic(auto, using(crate::proofs::Closing::each_append))]
fn uses_cancel(x: &Leaf<'_>, uses: &[(usize, i128)], constant: i128) -> bool
    requires held { LeafHeld x.now }
    requires light { IsLight x.now }
    requires constant { constant ≡ constant_of x.now }
    ensures { IsTrue result ↔ Each (CancelsIn x.now)
        (use_atoms x.now.ints.now (leaf_sequent x.now) uses.now) }
{
    match uses.split_first() {
        Some((first, more)) => match bounded_at(x, first.0) {
            Some(d) => all_cancel(x, d.left, constant)
                && all_cancel(x, d.right, constant)
                && uses_cancel(x, more, constant),
            None => uses_cancel(x, more, constant),
        },
        None => true,
    }
}

/// Whether the formulas of a sequent at these places, each with a multiplier, can't all hold: their weighted sum has no atom left and a
/// constant above 0, and its weight is at most 2^126.
#[tactic(auto, using(crate::proofs::Closing::closes_if, crate::proofs::Closing::closes_allowed, crate::proofs::Closing::closes_above, crate::proofs::Closing::closes_cancels, crate::proofs::Closing::closes_light))]
pub fn closes_linear(store: &Store, ints: &Ints, sequent: &[TermId], uses: &[(usize, i128)]) -> bool
    requires { All (Holds store.now) sequent.now }
    ensures { IsTrue result ↔ ClosesLinear ints.now (map (tree_at store.now) sequent.now) uses.now }
{
    let x = Leaf {
        store,
        ints,
        sequent,
        uses,
    };
    if !are_uses(&x, uses) {
        return false;
    }
    if weigh_all(&x, uses) > 85070591730234615865843651857942052864 {
        return false;
    }
    let constant = total(&x, uses, None);
    constant > 0 && uses_cancel(&x, uses, constant)
}
