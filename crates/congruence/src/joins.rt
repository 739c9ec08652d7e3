// One level of congruence, in halves: from what shows the parts alike, a step that refutes the one expression and the negation of
// the other.
ghost use Rattle.std.specs.Prelude.{◌≡◌, [], ◌∷◌, List, IfOk};
ghost use Rattle.trees.specs.Tree.{Two, HJoin};
ghost use Rattle.trees.specs.Node.{tree_at};
ghost use Rattle.trees.specs.Sorts.{sort_of};
ghost use Rattle.tasks.specs.Task.{neg};
ghost use Rattle.evidence.specs.Drafts.{Extends, Refutes, IsFormulaAt};
ghost use Rattle.congruence.specs.Alike.{HasHalves, Shows, ArePair};
ghost use Rattle.congruence.specs.Connectives.{IsJoined};
ghost use Rattle.congruence.specs.Lines.{kept_pair, join_lines};

use crate::alike::{AlikeBy, Halves, make_halves};
use evidence::proof_scripts::{Line, Places, Word, derive};
use evidence::{Draft, negation};
use std::alloc::{AllocError, Global};
use trees::{Op, Sort, TermId};

// [not a; not not b], from [b; not a].
pub(crate) fn half_not(
    draft: &mut Draft,
    a: TermId,
    b: TermId,
    no_a: TermId,
    no_b: TermId,
    back: usize,
) -> Result<usize, AllocError>
    requires a { IsFormulaAt draft.old a }
    requires b { IsFormulaAt draft.old b }
    requires no_a { IsFormulaAt draft.old no_a }
    requires no_b { IsFormulaAt draft.old no_b }
    requires no_a_is { tree_at draft.old.trees no_a ≡ neg (tree_at draft.old.trees a) }
    requires no_b_is { tree_at draft.old.trees no_b ≡ neg (tree_at draft.old.trees b) }
    requires back { Refutes draft.old back
        (tree_at draft.old.trees b ∷ neg (tree_at draft.old.trees a) ∷ []) }
    ensures refutes { IfOk result (λ k. Refutes draft.new k
        (tree_at draft.old.trees no_a ∷ neg (tree_at draft.old.trees no_b) ∷ [])) }
    ensures grows { Extends draft.old draft.new }
{
    let whole = negation(draft, no_b)?;
    derive(
        draft,
        &[],
        &[no_a, whole],
        &[
            Line::Rule(Word::NotNot(1)),
            Line::Kept(back, Places::Two(2, 0)),
        ],
    )
}

// A line that keeps the formulas at two places.
fn keep_two(step: usize, first: usize, second: usize) -> Line
    ensures { result ≡ kept_pair step first second }
{
    Line::Kept(step, Places::Two(first, second))
}

// The lines for a connective.
fn lines_for(alloc: Global, op: Op, first: Halves, second: Halves) -> Result<Vec<Line>, AllocError>
    ensures { IfOk result (λ v. v.items
        ≡ join_lines op first.there first.back second.there second.back) }
{
    let ab = first.there;
    let ba = first.back;
    let ce = second.there;
    let ec = second.back;
    let open = Line::Holding(op, 0);
    let refute = Line::Failing(op, 1);
    match op {
        Op::And | Op::AndThen => {
            Vec::from_slice(
                alloc,
                &[open, refute, keep_two(ab, 2, 4), keep_two(ce, 3, 4)],
            )
        }
        Op::Or | Op::OrElse => Vec::from_slice(
            alloc,
            &[open, refute, keep_two(ab, 2, 3), refute, keep_two(ce, 2, 4)],
        ),
        Op::Imp => Vec::from_slice(
            alloc,
            &[open, refute, keep_two(ba, 3, 2), refute, keep_two(ce, 2, 4)],
        ),
        Op::Iff => Vec::from_slice(
            alloc,
            &[
                open,
                refute,
                keep_two(ce, 3, 5),
                keep_two(ab, 2, 4),
                refute,
                keep_two(ba, 4, 2),
                keep_two(ec, 5, 3),
            ],
        ),
    }
}

/// A formula of a connective, and its two sides.
#[derive(Clone, Copy)]
pub(crate) struct Joined {
    whole: TermId,
    first: TermId,
    second: TermId,
}

impl Joined {
    fn new(whole: TermId, first: TermId, second: TermId) -> Joined
        ensures { result ≡ record { whole = whole; first = first; second = second } }
    {
        Joined {
            whole,
            first,
            second,
        }
    }
}

// [a op c; not (b op e)], from the halves of `a`, `b` and of `c`, `e`.
fn half_join(
    draft: &mut Draft,
    op: Op,
    left: Joined,
    right: Joined,
    first: Halves,
    second: Halves,
) -> Result<usize, AllocError>
    requires left { IsJoined draft.old op left }
    requires right { IsJoined draft.old op right }
    requires first { HasHalves draft.old (tree_at draft.old.trees left.first)
        (tree_at draft.old.trees right.first) first.there first.back }
    requires second { HasHalves draft.old (tree_at draft.old.trees left.second)
        (tree_at draft.old.trees right.second) second.there second.back }
    ensures refutes { IfOk result (λ k. Refutes draft.new k
        (tree_at draft.old.trees left.whole ∷ neg (tree_at draft.old.trees right.whole) ∷ [])) }
    ensures grows { Extends draft.old draft.new }
{
    let negated = negation(draft, right.whole)?;
    let lines = lines_for(draft.allocator(), op, first, second)?;
    derive(draft, &[], &[left.whole, negated], &lines)
}

// The halves of negations, from those of the formulas.
#[tactic(auto, using(evidence::specs::Laws::Extends_trans, evidence::proofs::Rules::refutes_later, evidence::proofs::Formulas::formula_later, crate::proofs::Later::tree_later, crate::proofs::Later::halves_later))]
fn not_halves(
    draft: &mut Draft,
    left: TermId,
    right: TermId,
    a: TermId,
    b: TermId,
    parts: Halves,
) -> Result<Halves, AllocError>
    requires a { IsFormulaAt draft.old a }
    requires b { IsFormulaAt draft.old b }
    requires left { IsFormulaAt draft.old left }
    requires right { IsFormulaAt draft.old right }
    requires left_is { tree_at draft.old.trees left ≡ neg (tree_at draft.old.trees a) }
    requires right_is { tree_at draft.old.trees right ≡ neg (tree_at draft.old.trees b) }
    requires halves { HasHalves draft.old (tree_at draft.old.trees a) (tree_at draft.old.trees b)
        parts.there parts.back }
    ensures halves { IfOk result (λ h. HasHalves draft.new (tree_at draft.old.trees left)
        (tree_at draft.old.trees right) h.there h.back) }
    ensures grows { Extends draft.old draft.new }
{
    let there = half_not(draft, a, b, left, right, parts.back)?;
    let back = half_not(draft, b, a, right, left, parts.there)?;
    Ok(Halves { there, back })
}

/// The negations of alike formulas.
#[tactic(auto, using(evidence::specs::Laws::Extends_trans, evidence::proofs::Rules::refutes_later, evidence::proofs::Formulas::formula_later, crate::proofs::Later::tree_later, crate::proofs::Later::halves_later))]
pub fn alike_not(
    draft: &mut Draft,
    left: TermId,
    right: TermId,
    a: TermId,
    b: TermId,
    alike: AlikeBy,
) -> Result<AlikeBy, AllocError>
    requires pair { ArePair draft.old a b }
    requires formula { sort_of (tree_at draft.old.trees a) ≡ Sort.Formula }
    requires left { IsFormulaAt draft.old left }
    requires right { IsFormulaAt draft.old right }
    requires left_is { tree_at draft.old.trees left ≡ neg (tree_at draft.old.trees a) }
    requires right_is { tree_at draft.old.trees right ≡ neg (tree_at draft.old.trees b) }
    requires shows { Shows draft.old alike (tree_at draft.old.trees a) (tree_at draft.old.trees b) }
    ensures shows { IfOk result (λ w. Shows draft.new w (tree_at draft.old.trees left)
        (tree_at draft.old.trees right)) }
    ensures grows { Extends draft.old draft.new }
{
    let parts = make_halves(draft, a, b, alike)?;
    let made = not_halves(draft, left, right, a, b, parts)?;
    Ok(AlikeBy::Formulas(made.there, made.back))
}

// The halves of two formulas of one connective, from those of their sides.
#[tactic(auto, using(evidence::specs::Laws::Extends_trans, evidence::proofs::Rules::refutes_later, evidence::proofs::Formulas::formula_later, crate::proofs::Later::tree_later, crate::proofs::Later::halves_later))]
fn join_halves(
    draft: &mut Draft,
    op: Op,
    left: Joined,
    right: Joined,
    first: Halves,
    second: Halves,
) -> Result<Halves, AllocError>
    requires left { IsJoined draft.old op left }
    requires right { IsJoined draft.old op right }
    requires first { HasHalves draft.old (tree_at draft.old.trees left.first)
        (tree_at draft.old.trees right.first) first.there first.back }
    requires second { HasHalves draft.old (tree_at draft.old.trees left.second)
        (tree_at draft.old.trees right.second) second.there second.back }
    ensures halves { IfOk result (λ h. HasHalves draft.new (tree_at draft.old.trees left.whole)
        (tree_at draft.old.trees right.whole) h.there h.back) }
    ensures grows { Extends draft.old draft.new }
{
    let there = half_join(draft, op, left, right, first, second)?;
    let one = first.turned();
    let two = second.turned();
    let back = half_join(draft, op, right, left, one, two)?;
    Ok(Halves { there, back })
}

/// Two formulas of one connective, of alike sides.
#[tactic(auto, using(evidence::specs::Laws::Extends_trans, evidence::proofs::Formulas::formula_later, crate::proofs::Later::tree_later, crate::proofs::Later::held_later, crate::proofs::Later::halves_at))]
pub fn alike_join(
    draft: &mut Draft,
    op: Op,
    left: TermId,
    right: TermId,
    a: TermId,
    c: TermId,
    b: TermId,
    e: TermId,
    first: AlikeBy,
    second: AlikeBy,
) -> Result<AlikeBy, AllocError>
    requires left { IsFormulaAt draft.old left }
    requires right { IsFormulaAt draft.old right }
    requires first_pair { ArePair draft.old a b }
    requires second_pair { ArePair draft.old c e }
    requires first_formula { sort_of (tree_at draft.old.trees a) ≡ Sort.Formula }
    requires second_formula { sort_of (tree_at draft.old.trees c) ≡ Sort.Formula }
    requires left_is { tree_at draft.old.trees left
        ≡ Two (HJoin op) (tree_at draft.old.trees a) (tree_at draft.old.trees c) }
    requires right_is { tree_at draft.old.trees right
        ≡ Two (HJoin op) (tree_at draft.old.trees b) (tree_at draft.old.trees e) }
    requires first { Shows draft.old first (tree_at draft.old.trees a) (tree_at draft.old.trees b) }
    requires second { Shows draft.old second (tree_at draft.old.trees c)
        (tree_at draft.old.trees e) }
    ensures shows { IfOk result (λ w. Shows draft.new w (tree_at draft.old.trees left)
        (tree_at draft.old.trees right)) }
    ensures grows { Extends draft.old draft.new }
{
    let one = make_halves(draft, a, b, first)?;
    let two = make_halves(draft, c, e, second)?;
    let l = Joined::new(left, a, c);
    let r = Joined::new(right, b, e);
    let made = join_halves(draft, op, l, r, one, two)?;
    Ok(AlikeBy::Formulas(made.there, made.back))
}
