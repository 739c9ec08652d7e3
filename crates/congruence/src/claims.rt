// The claim that two expressions are alike, as one formula, and evidence by a step that refutes its negation.
ghost use Rattle.std.specs.Prelude.{◌≡◌, [], ◌∷◌, IfOk};
ghost use Rattle.trees.specs.Tree.{Tree, Two, HJoin};
ghost use Rattle.trees.specs.Node.{tree_at};
ghost use Rattle.trees.specs.Sorts.{sort_of};
ghost use Rattle.tasks.specs.Task.{neg};
ghost use Rattle.rules.specs.Forms.{alike, equal};
ghost use Rattle.evidence.specs.Drafts.{Extends, AddsTrees, Refutes, IsFormulaAt};
ghost use Rattle.congruence.specs.Alike.{HasHalves, Shows, ArePair};

use crate::alike::{AlikeBy, Halves, irreflexive, make_halves};
use crate::replacing::apart;
use evidence::proof_scripts::{Line, Places, Word, derive};
use evidence::{Draft, negation};
use std::alloc::AllocError;
use tasks::Grow;
use trees::{Node, Op, Sort, TermId};

// `l = r` for terms, `l <-> r` for formulas.
pub(crate) fn claim(draft: &mut Draft, l: TermId, r: TermId) -> Result<TermId, AllocError>
    requires pair { ArePair draft.old l r }
    ensures formula { IfOk result (IsFormulaAt draft.new) }
    ensures tree { IfOk result (λ id. tree_at draft.new.trees id
        ≡ alike (tree_at draft.old.trees l) (tree_at draft.old.trees r)) }
    ensures grows { AddsTrees draft.old draft.new }
{
    match draft.store().sort(l) {
        Sort::Term => draft.add(Node::Eq(l, r)),
        _ => draft.add(Node::Join(Op::Iff, l, r)),
    }
}

// The negation of the claim.
pub(crate) fn denial(draft: &mut Draft, l: TermId, r: TermId) -> Result<TermId, AllocError>
    requires pair { ArePair draft.old l r }
    ensures formula { IfOk result (IsFormulaAt draft.new) }
    ensures tree { IfOk result (λ id. tree_at draft.new.trees id
        ≡ neg (alike (tree_at draft.old.trees l) (tree_at draft.old.trees r))) }
    ensures grows { AddsTrees draft.old draft.new }
{
    let claimed = claim(draft, l, r)?;
    negation(draft, claimed)
}

// [l; not r], from `l <-> r`.
fn claim_there(
    draft: &mut Draft,
    l: TermId,
    r: TermId,
    claimed: TermId,
    lemma: usize,
) -> Result<usize, AllocError>
    requires l { IsFormulaAt draft.old l }
    requires r { IsFormulaAt draft.old r }
    requires claimed { IsFormulaAt draft.old claimed }
    requires claimed_is { tree_at draft.old.trees claimed
        ≡ Two (HJoin Op.Iff) (tree_at draft.old.trees l) (tree_at draft.old.trees r) }
    requires lemma { Refutes draft.old lemma (neg (tree_at draft.old.trees claimed) ∷ []) }
    ensures refutes { IfOk result (λ k. Refutes draft.new k
        (tree_at draft.old.trees l ∷ neg (tree_at draft.old.trees r) ∷ [])) }
    ensures grows { Extends draft.old draft.new }
{
    let negated = negation(draft, r)?;
    derive(
        draft,
        &[],
        &[l, negated],
        &[
            Line::Cut(claimed),
            Line::Holding(Op::Iff, 2),
            Line::Rule(Word::Clash(4, 1)),
            Line::Rule(Word::Clash(0, 3)),
            Line::Kept(lemma, Places::One(2)),
        ],
    )
}

// [r; not l], from `l <-> r`.
fn claim_back(
    draft: &mut Draft,
    l: TermId,
    r: TermId,
    claimed: TermId,
    lemma: usize,
) -> Result<usize, AllocError>
    requires l { IsFormulaAt draft.old l }
    requires r { IsFormulaAt draft.old r }
    requires claimed { IsFormulaAt draft.old claimed }
    requires claimed_is { tree_at draft.old.trees claimed
        ≡ Two (HJoin Op.Iff) (tree_at draft.old.trees l) (tree_at draft.old.trees r) }
    requires lemma { Refutes draft.old lemma (neg (tree_at draft.old.trees claimed) ∷ []) }
    ensures refutes { IfOk result (λ k. Refutes draft.new k
        (tree_at draft.old.trees r ∷ neg (tree_at draft.old.trees l) ∷ [])) }
    ensures grows { Extends draft.old draft.new }
{
    let negated = negation(draft, l)?;
    derive(
        draft,
        &[],
        &[r, negated],
        &[
            Line::Cut(claimed),
            Line::Holding(Op::Iff, 2),
            Line::Rule(Word::Clash(3, 1)),
            Line::Rule(Word::Clash(0, 4)),
            Line::Kept(lemma, Places::One(2)),
        ],
    )
}

// The halves of an equivalence, from a step for it.
#[tactic(auto, using(evidence::specs::Laws::Extends_trans, evidence::proofs::Rules::refutes_later, evidence::proofs::Formulas::formula_later, crate::proofs::Later::tree_later, crate::proofs::Later::halves_later))]
fn claim_halves(
    draft: &mut Draft,
    l: TermId,
    r: TermId,
    claimed: TermId,
    lemma: usize,
) -> Result<Halves, AllocError>
    requires l { IsFormulaAt draft.old l }
    requires r { IsFormulaAt draft.old r }
    requires claimed { IsFormulaAt draft.old claimed }
    requires claimed_is { tree_at draft.old.trees claimed
        ≡ Two (HJoin Op.Iff) (tree_at draft.old.trees l) (tree_at draft.old.trees r) }
    requires lemma { Refutes draft.old lemma (neg (tree_at draft.old.trees claimed) ∷ []) }
    ensures halves { IfOk result (λ h. HasHalves draft.new (tree_at draft.old.trees l)
        (tree_at draft.old.trees r) h.there h.back) }
    ensures grows { Extends draft.old draft.new }
{
    let there = claim_there(draft, l, r, claimed, lemma)?;
    let back = claim_back(draft, l, r, claimed, lemma)?;
    Ok(Halves { there, back })
}

// Evidence by a step for the claim.
fn alike_claimed(
    draft: &mut Draft,
    l: TermId,
    r: TermId,
    claimed: TermId,
    lemma: usize,
) -> Result<AlikeBy, AllocError>
    requires pair { ArePair draft.old l r }
    requires claimed { IsFormulaAt draft.old claimed }
    requires claimed_is { tree_at draft.old.trees claimed
        ≡ alike (tree_at draft.old.trees l) (tree_at draft.old.trees r) }
    requires lemma { Refutes draft.old lemma (neg (tree_at draft.old.trees claimed) ∷ []) }
    ensures shows { IfOk result (λ a. Shows draft.new a (tree_at draft.old.trees l)
        (tree_at draft.old.trees r)) }
    ensures grows { Extends draft.old draft.new }
{
    match draft.store().sort(l) {
        Sort::Term => Ok(AlikeBy::Terms(lemma)),
        _ => {
            let made = claim_halves(draft, l, r, claimed, lemma)?;
            Ok(AlikeBy::Formulas(made.there, made.back))
        }
    }
}

// A step for the equation of alike terms.
pub(crate) fn equal_step(
    draft: &mut Draft,
    l: TermId,
    r: TermId,
    alike: AlikeBy,
) -> Result<usize, AllocError>
    requires pair { ArePair draft.old l r }
    requires term { sort_of (tree_at draft.old.trees l) ≡ Sort.Term }
    requires shows { Shows draft.old alike (tree_at draft.old.trees l) (tree_at draft.old.trees r) }
    ensures refutes { IfOk result (λ k. Refutes draft.new k
        (neg (equal (tree_at draft.old.trees l) (tree_at draft.old.trees r)) ∷ [])) }
    ensures grows { Extends draft.old draft.new }
{
    match alike {
        AlikeBy::Terms(step) => Ok(step),
        AlikeBy::Formulas(_, _) => unreachable!(),
        AlikeBy::Same => {
            let goal = apart(draft, l, r)?;
            irreflexive(draft, goal)
        }
    }
}

// [not (l <-> r)], from the halves.
fn iff_step(draft: &mut Draft, l: TermId, r: TermId, halves: Halves) -> Result<usize, AllocError>
    requires l { IsFormulaAt draft.old l }
    requires r { IsFormulaAt draft.old r }
    requires halves { HasHalves draft.old (tree_at draft.old.trees l) (tree_at draft.old.trees r)
        halves.there halves.back }
    ensures refutes { IfOk result (λ k. Refutes draft.new k (neg (Two (HJoin Op.Iff)
        (tree_at draft.old.trees l) (tree_at draft.old.trees r)) ∷ [])) }
    ensures grows { Extends draft.old draft.new }
{
    let claimed = draft.add(Node::Join(Op::Iff, l, r))?;
    let goal = negation(draft, claimed)?;
    derive(
        draft,
        &[],
        &[goal],
        &[
            Line::Failing(Op::Iff, 0),
            Line::Kept(halves.there, Places::Two(1, 2)),
            Line::Kept(halves.back, Places::Two(2, 1)),
        ],
    )
}

/// A step that refutes the negation of `l = r`, for terms, or of `l <-> r`, for formulas.
pub fn step_of_alike(
    draft: &mut Draft,
    l: TermId,
    r: TermId,
    by: AlikeBy,
) -> Result<usize, AllocError>
    requires pair { ArePair draft.old l r }
    requires shows { Shows draft.old by (tree_at draft.old.trees l) (tree_at draft.old.trees r) }
    ensures refutes { IfOk result (λ k. Refutes draft.new k
        (neg (alike (tree_at draft.old.trees l) (tree_at draft.old.trees r)) ∷ [])) }
    ensures grows { Extends draft.old draft.new }
{
    match draft.store().sort(l) {
        Sort::Term => { equal_step(draft, l, r, by) }
        _ => { formulas_step(draft, l, r, by) }
    }
}

// A step that refutes the negation of `l <-> r`, for formulas.
fn formulas_step(draft: &mut Draft, l: TermId, r: TermId, by: AlikeBy) -> Result<usize, AllocError>
    requires pair { ArePair draft.old l r }
    requires formula { sort_of (tree_at draft.old.trees l) ≡ Sort.Formula }
    requires shows { Shows draft.old by (tree_at draft.old.trees l) (tree_at draft.old.trees r) }
    ensures refutes { IfOk result (λ k. Refutes draft.new k (neg (Two (HJoin Op.Iff)
        (tree_at draft.old.trees l) (tree_at draft.old.trees r)) ∷ [])) }
    ensures grows { Extends draft.old draft.new }
{
    let halves = make_halves(draft, l, r, by)?;
    iff_step(draft, l, r, halves)
}

/// Evidence by a step that refutes the negation of `l = r`, or of `l <-> r`.
pub fn alike_by_step(
    draft: &mut Draft,
    l: TermId,
    r: TermId,
    step: usize,
) -> Result<AlikeBy, AllocError>
    requires pair { ArePair draft.old l r }
    requires step { Refutes draft.old step
        (neg (alike (tree_at draft.old.trees l) (tree_at draft.old.trees r)) ∷ []) }
    ensures shows { IfOk result (λ a. Shows draft.new a (tree_at draft.old.trees l)
        (tree_at draft.old.trees r)) }
    ensures grows { Extends draft.old draft.new }
{
    let claimed = claim(draft, l, r)?;
    alike_claimed(draft, l, r, claimed, step)
}
