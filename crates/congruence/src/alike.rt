// What evidence shows of two closed expressions, and links that are joined.
ghost use Rattle.std.specs.Prelude.{◌≡◌, [], ◌∷◌, Some, IfOk};
ghost use Rattle.trees.specs.Tree.{Tree};
ghost use Rattle.trees.specs.Node.{tree_at, Holds};
ghost use Rattle.trees.specs.Binding.{inst};
ghost use Rattle.trees.specs.Sorts.{sort_of, type_of};
ghost use Rattle.tasks.specs.Task.{neg};
ghost use Rattle.rules.specs.Forms.{equal};
ghost use Rattle.evidence.specs.Drafts.{DraftTree, Extends, AddsTrees, Refutes, IsFormulaAt};
ghost use Rattle.congruence.specs.Alike.{IsClosedAt, HasHalves, Shows, ArePair, TemplateFor, IsIrreflexive};

use evidence::proof_scripts::{Line, Places, Word, derive};
use evidence::{Draft, negation};
use std::alloc::AllocError;
use tasks::Grow;
use trees::{Node, Op, Sort, TermId};

/// Evidence that two closed expressions are alike: they are one tree; a step that refutes `not (l = r)` alone; steps that refute
/// `[l; not r]` and `[r; not l]`.
#[derive(Clone, Copy)]
pub enum AlikeBy {
    Same,
    Terms(usize),
    Formulas(usize, usize),
}

/// Steps for the two halves of an equivalence.
#[derive(Clone, Copy)]
pub struct Halves {
    pub there: usize,
    pub back: usize,
}

impl Halves {
    /// The halves the other way round.
    pub(crate) fn turned(self) -> Halves
        ensures { (d : DraftTree) (l r : Tree) → HasHalves d l r self.there self.back
            → HasHalves d r l result.there result.back }
    {
        Halves {
            there: self.back,
            back: self.there,
        }
    }
}

// The equation of two terms.
pub(crate) fn equation(draft: &mut Draft, l: TermId, r: TermId) -> Result<TermId, AllocError>
    requires pair { ArePair draft.old l r }
    requires term { sort_of (tree_at draft.old.trees l) ≡ Sort.Term }
    ensures formula { IfOk result (IsFormulaAt draft.new) }
    ensures tree { IfOk result (λ id. tree_at draft.new.trees id
        ≡ equal (tree_at draft.old.trees l) (tree_at draft.old.trees r)) }
    ensures grows { AddsTrees draft.old draft.new }
{
    draft.add(Node::Eq(l, r))
}

/// Steps for the two halves.
pub fn make_halves(
    draft: &mut Draft,
    l: TermId,
    r: TermId,
    alike: AlikeBy,
) -> Result<Halves, AllocError>
    requires pair { ArePair draft.old l r }
    requires formula { sort_of (tree_at draft.old.trees l) ≡ Sort.Formula }
    requires shows { Shows draft.old alike (tree_at draft.old.trees l) (tree_at draft.old.trees r) }
    ensures halves { IfOk result (λ h. HasHalves draft.new (tree_at draft.old.trees l)
        (tree_at draft.old.trees r) h.there h.back) }
    ensures grows { Extends draft.old draft.new }
{
    match alike {
        AlikeBy::Formulas(there, back) => Ok(Halves { there, back }),
        _ => {
            let negated = negation(draft, l)?;
            let step = derive(draft, &[], &[l, negated], &[Line::Rule(Word::Clash(0, 1))])?;
            Ok(Halves {
                there: step,
                back: step,
            })
        }
    }
}

// The type of a term.
pub(crate) fn type_of_term(draft: &Draft, term: TermId) -> TermId
    requires closed { IsClosedAt draft.now term }
    requires term { sort_of (tree_at draft.now.trees term) ≡ Sort.Term }
    ensures held { Holds draft.now.trees result }
    ensures is { type_of (tree_at draft.now.trees term)
        ≡ Some (tree_at draft.now.trees result) }
{
    match draft.store().ty(term) {
        Some(ty) => ty,
        None => unreachable!(),
    }
}

/// [goal], from `a = b` and a step that refutes what the goal becomes with `b` in the place of `a`.
pub(crate) fn by_replacing(
    draft: &mut Draft,
    goal: TermId,
    template: TermId,
    a: TermId,
    b: TermId,
    lemma: usize,
    step: usize,
) -> Result<usize, AllocError>
    requires pair { ArePair draft.old a b }
    requires term { sort_of (tree_at draft.old.trees a) ≡ Sort.Term }
    requires goal { IsFormulaAt draft.old goal }
    requires template_held { Holds draft.old.trees template }
    requires template { TemplateFor draft.old.task (tree_at draft.old.trees a)
        (tree_at draft.old.trees template) }
    requires before { tree_at draft.old.trees goal
        ≡ inst (tree_at draft.old.trees template) (tree_at draft.old.trees a) }
    requires lemma { Refutes draft.old lemma
        (neg (equal (tree_at draft.old.trees a) (tree_at draft.old.trees b)) ∷ []) }
    requires step { Refutes draft.old step
        (inst (tree_at draft.old.trees template) (tree_at draft.old.trees b) ∷ []) }
    ensures refutes { IfOk result (λ k. Refutes draft.new k
        (tree_at draft.old.trees goal ∷ [])) }
    ensures grows { Extends draft.old draft.new }
{
    let link = equation(draft, a, b)?;
    derive(
        draft,
        &[],
        &[goal],
        &[
            Line::Cut(link),
            Line::Rule(Word::Replace(1, 0, template)),
            Line::Kept(step, Places::One(2)),
            Line::Kept(lemma, Places::One(1)),
        ],
    )
}

/// [not (x = x)].
pub(crate) fn irreflexive(draft: &mut Draft, formula: TermId) -> Result<usize, AllocError>
    requires formula { IsFormulaAt draft.old formula }
    requires same { IsIrreflexive (tree_at draft.old.trees formula) }
    ensures refutes { IfOk result (λ k. Refutes draft.new k
        (tree_at draft.old.trees formula ∷ [])) }
    ensures grows { Extends draft.old draft.new }
{
    derive(draft, &[], &[formula], &[Line::Rule(Word::Irrefl(0))])
}

/// Evidence of formulas through a middle.
#[tactic(auto, using(evidence::specs::Laws::Extends_trans, evidence::proofs::Rules::refutes_later, evidence::proofs::Formulas::formula_later, crate::proofs::Later::tree_later, crate::proofs::Later::halves_later))]
pub(crate) fn chain_formulas(
    draft: &mut Draft,
    l: TermId,
    m: TermId,
    r: TermId,
    first: AlikeBy,
    second: AlikeBy,
) -> Result<AlikeBy, AllocError>
    requires left { ArePair draft.old l m }
    requires formula { sort_of (tree_at draft.old.trees l) ≡ Sort.Formula }
    requires right { ArePair draft.old m r }
    requires first { Shows draft.old first (tree_at draft.old.trees l) (tree_at draft.old.trees m) }
    requires second { Shows draft.old second (tree_at draft.old.trees m)
        (tree_at draft.old.trees r) }
    ensures shows { IfOk result (λ a. Shows draft.new a (tree_at draft.old.trees l)
        (tree_at draft.old.trees r)) }
    ensures grows { Extends draft.old draft.new }
{
    match first {
        AlikeBy::Same => Ok(second),
        AlikeBy::Terms(_) => unreachable!(),
        AlikeBy::Formulas(there, back) => match second {
            AlikeBy::Same => Ok(first),
            AlikeBy::Terms(_) => unreachable!(),
            AlikeBy::Formulas(on, home) => {
                let one = chain_half(draft, l, m, r, there, on)?;
                let other = chain_half(draft, r, m, l, home, back)?;
                Ok(AlikeBy::Formulas(one, other))
            }
        },
    }
}

// [l; not r], from [l; not m] and [m; not r].
fn chain_half(
    draft: &mut Draft,
    l: TermId,
    m: TermId,
    r: TermId,
    first: usize,
    second: usize,
) -> Result<usize, AllocError>
    requires l { IsFormulaAt draft.old l }
    requires m { IsFormulaAt draft.old m }
    requires r { IsFormulaAt draft.old r }
    requires first { Refutes draft.old first
        (tree_at draft.old.trees l ∷ neg (tree_at draft.old.trees m) ∷ []) }
    requires second { Refutes draft.old second
        (tree_at draft.old.trees m ∷ neg (tree_at draft.old.trees r) ∷ []) }
    ensures refutes { IfOk result (λ k. Refutes draft.new k
        (tree_at draft.old.trees l ∷ neg (tree_at draft.old.trees r) ∷ [])) }
    ensures grows { Extends draft.old draft.new }
{
    let negated = negation(draft, r)?;
    derive(
        draft,
        &[],
        &[l, negated],
        &[
            Line::Cut(m),
            Line::Kept(second, Places::Two(2, 1)),
            Line::Kept(first, Places::Two(0, 2)),
        ],
    )
}
