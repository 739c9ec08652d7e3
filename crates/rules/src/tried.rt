// A rule tried at a step: what its premises have after the step's sequent.
// It depends on shapes; the rows of the table depend on it.
ghost use Rattle.std.specs.Prelude.{◌≡◌, ◌↔◌, [], ◌∷◌, ◌++◌, ◌<◌, length, get_or, slice_get, All, IsTrue, IfSome};
ghost use Rattle.std.specs.Option.{option_map};
ghost use Rattle.trees.specs.Tree.{loose};
ghost use Rattle.trees.specs.Node.{tree_at, Holds};
ghost use Rattle.tasks.specs.Meaning.{trees_at};
ghost use Rattle.rules.specs.Rows.{Adds};
ghost use Rattle.rules.specs.Meaning.{sequent_of, premises_of, TriedHeld};

use crate::rule::Step;
use crate::shape::Shape;
use tasks::Lookup;
use trees::TermId;
use trees::store::Store;

/// A sequent, and premises among the steps before it, for a task.
#[derive(Clone, Copy)]
pub struct Tried<'a> {
    pub store: &'a Store,
    pub look: &'a Lookup<'a>,
    pub sequent: &'a [TermId],
    pub before: &'a [Step],
    pub premises: &'a [usize],
}

/// The formula at a place.
pub fn formula_at(x: &Tried<'_>, place: usize) -> Option<TermId>
    requires { TriedHeld x.now }
    ensures tree { option_map (tree_at x.now.store.now) result
        ≡ slice_get (sequent_of x.now) place }
    ensures held { IfSome result (Holds x.now.store.now) }
    ensures closed { IfSome result (λ a. loose (tree_at x.now.store.now a) ≡ 0) }
{
    x.sequent.get(place).copied()
}

// Whether two sequents are the same.
fn same_list(store: &Store, xs: &[TermId], ys: &[TermId]) -> bool
    requires xs_held { All (Holds store.now) xs.now }
    requires ys_held { All (Holds store.now) ys.now }
    ensures { IsTrue result ↔ (trees_at store.now xs.now ≡ trees_at store.now ys.now) }
{
    if xs.len() != ys.len() {
        return false;
    }
    for i in 0..xs.len() {
        if !store.same(xs[i], ys[i]) {
            return false;
        }
    }
    true
}

/// Whether a sequent is another with one formula after it.
pub fn is_wider<A: Shape>(store: &Store, premise: &[TermId], sequent: &[TermId], a: &A) -> bool
    requires premise_held { All (Holds store.now) premise.now }
    requires sequent_held { All (Holds store.now) sequent.now }
    requires held { A.IsHeld a.now store.now }
    ensures { IsTrue result ↔ (trees_at store.now premise.now
        ≡ trees_at store.now sequent.now ++ A.tree a.now store.now ∷ []) }
{
    match premise.split_last() {
        Some((last, front)) => same_list(store, front, sequent) && a.is(store, *last),
        None => false,
    }
}

// Whether a sequent is another with two formulas after it.
fn is_wider_by_two<A: Shape, B: Shape>(
    store: &Store,
    premise: &[TermId],
    sequent: &[TermId],
    a: &A,
    b: &B,
) -> bool
    requires premise_held { All (Holds store.now) premise.now }
    requires sequent_held { All (Holds store.now) sequent.now }
    requires a_held { A.IsHeld a.now store.now }
    requires b_held { B.IsHeld b.now store.now }
    ensures { IsTrue result ↔ (trees_at store.now premise.now
        ≡ (trees_at store.now sequent.now ++ A.tree a.now store.now ∷ []) ++ B.tree b.now store.now
        ∷ []) }
{
    match premise.split_last() {
        Some((last, front)) => is_wider(store, front, sequent, a) && b.is(store, *last),
        None => false,
    }
}

/// Whether there is no premise.
pub fn adds_none(x: &Tried<'_>) -> bool
    ensures { IsTrue result ↔ Adds (sequent_of x.now) (premises_of x.now) [] }
{
    x.premises.is_empty()
}

/// The sequent of a premise.
pub fn premise<'a>(x: &Tried<'a>, i: usize) -> &'a [TermId]
    requires tried { TriedHeld x.now }
    requires within { i < length x.now.premises.now }
    ensures held { All (Holds x.now.store.now) result.now }
    ensures trees { trees_at x.now.store.now result.now ≡ get_or (premises_of x.now) i [] }
{
    x.before[x.premises[i]].sequent.as_slice()
}

/// Whether there is one premise, which has this formula after the sequent.
pub fn adds_one<A: Shape>(x: &Tried<'_>, a: &A) -> bool
    requires tried { TriedHeld x.now }
    requires held { A.IsHeld a.now x.now.store.now }
    ensures { IsTrue result ↔ Adds (sequent_of x.now) (premises_of x.now)
        ((A.tree a.now x.now.store.now ∷ []) ∷ []) }
{
    x.premises.len() == 1 && is_wider(x.store, premise(x, 0), x.sequent, a)
}

/// Whether there is one premise, which has these two formulas after the sequent.
#[tactic(auto, using(crate::proofs::After::two_after))]
pub fn adds_both<A: Shape, B: Shape>(x: &Tried<'_>, a: &A, b: &B) -> bool
    requires tried { TriedHeld x.now }
    requires a_held { A.IsHeld a.now x.now.store.now }
    requires b_held { B.IsHeld b.now x.now.store.now }
    ensures { IsTrue result ↔ Adds (sequent_of x.now) (premises_of x.now)
        ((A.tree a.now x.now.store.now ∷ B.tree b.now x.now.store.now ∷ []) ∷ []) }
{
    x.premises.len() == 1 && is_wider_by_two(x.store, premise(x, 0), x.sequent, a, b)
}

/// Whether there are two premises, each of which has one formula after the sequent.
pub fn adds_each<A: Shape, B: Shape>(x: &Tried<'_>, a: &A, b: &B) -> bool
    requires tried { TriedHeld x.now }
    requires a_held { A.IsHeld a.now x.now.store.now }
    requires b_held { B.IsHeld b.now x.now.store.now }
    ensures { IsTrue result ↔ Adds (sequent_of x.now) (premises_of x.now)
        ((A.tree a.now x.now.store.now ∷ []) ∷ (B.tree b.now x.now.store.now ∷ []) ∷ []) }
{
    x.premises.len() == 2
        && is_wider(x.store, premise(x, 0), x.sequent, a)
        && is_wider(x.store, premise(x, 1), x.sequent, b)
}

/// Whether there are two premises, each of which has two formulas after the sequent.
#[tactic(auto, using(crate::proofs::After::two_after))]
pub fn adds_pairs<A: Shape, B: Shape, C: Shape, D: Shape>(
    x: &Tried<'_>,
    a: &A,
    b: &B,
    c: &C,
    d: &D,
) -> bool
    requires tried { TriedHeld x.now }
    requires a_held { A.IsHeld a.now x.now.store.now }
    requires b_held { B.IsHeld b.now x.now.store.now }
    requires c_held { C.IsHeld c.now x.now.store.now }
    requires d_held { D.IsHeld d.now x.now.store.now }
    ensures { IsTrue result ↔ Adds (sequent_of x.now) (premises_of x.now)
        ((A.tree a.now x.now.store.now ∷ B.tree b.now x.now.store.now ∷ []) ∷
        (C.tree c.now x.now.store.now ∷ D.tree d.now x.now.store.now ∷ []) ∷ []) }
{
    x.premises.len() == 2
        && is_wider_by_two(x.store, premise(x, 0), x.sequent, a, b)
        && is_wider_by_two(x.store, premise(x, 1), x.sequent, c, d)
}
