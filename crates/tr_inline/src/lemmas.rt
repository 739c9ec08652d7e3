// Lemmas of a draft, and universal ones taken at closed terms.
ghost use Rattle.std.specs.Prelude.{◌≡◌, [], ◌∷◌, IfOk};
ghost use Rattle.trees.specs.Tree.{Tree, Two, HForall};
ghost use Rattle.trees.specs.Binding.{inst};
ghost use Rattle.trees.specs.Node.{tree_at, Holds};
ghost use Rattle.tasks.specs.Task.{neg};
ghost use Rattle.tasks.specs.Typing.{members};
ghost use Rattle.evidence.specs.Drafts.{Extends, Refutes, IsFormulaAt};
ghost use Rattle.inlining.specs.images.Instances.{for_all_at};
ghost use Rattle.tr_inline.specs.Lemmas.{IsLemma, TakesTerm, TakesTerms};

use congruence::instance;
use evidence::proof_scripts::{Line, Places, Word, derive};
use evidence::{Draft, negation};
use std::alloc::AllocError;
use tasks::{Grow, TermId};
use trees::Node;

/// A formula, and a step whose sequent is its negation alone.
#[derive(Clone, Copy)]
pub(crate) struct Lemma {
    pub formula: TermId,
    pub step: usize,
}

// What is quantified.
fn under_forall(draft: &Draft, formula: TermId) -> TermId
    requires held { Holds draft.now.trees formula }
    requires universal { (ty : Tree) × ((body : Tree) × (tree_at draft.now.trees formula
        ≡ Two HForall ty body)) }
    ensures held { Holds draft.now.trees result }
    ensures tree { (ty body : Tree) → tree_at draft.now.trees formula ≡ Two HForall ty body
        → tree_at draft.now.trees result ≡ body }
{
    match draft.store().node(formula) {
        Node::Forall(_, body) => body,
        _ => unreachable!(),
    }
}

// [not a(t)], from [not forall x. a].
fn refute_instance(
    draft: &mut Draft,
    lemma: Lemma,
    term: TermId,
    made: TermId,
) -> Result<usize, AllocError>
    requires lemma { IsLemma draft.old lemma }
    requires term_held { Holds draft.old.trees term }
    requires term { TakesTerm draft.old.task (tree_at draft.old.trees lemma.formula)
        (tree_at draft.old.trees term) }
    requires made { IsFormulaAt draft.old made }
    requires made_is { (ty body : Tree) → tree_at draft.old.trees lemma.formula
        ≡ Two HForall ty body → tree_at draft.old.trees made
        ≡ inst body (tree_at draft.old.trees term) }
    ensures refutes { IfOk result (λ k. Refutes draft.new k
        (neg (tree_at draft.old.trees made) ∷ [])) }
    ensures grows { Extends draft.old draft.new }
{
    let negated = negation(draft, made)?;
    derive(
        draft,
        &[],
        &[negated],
        &[
            Line::Cut(lemma.formula),
            Line::Rule(Word::Forall(1, term)),
            Line::Rule(Word::Clash(2, 0)),
            Line::Kept(lemma.step, Places::One(1)),
        ],
    )
}

// A universal lemma at a closed term.
fn lemma_at_term(draft: &mut Draft, lemma: Lemma, term: TermId) -> Result<Lemma, AllocError>
    requires lemma { IsLemma draft.old lemma }
    requires term_held { Holds draft.old.trees term }
    requires term { TakesTerm draft.old.task (tree_at draft.old.trees lemma.formula)
        (tree_at draft.old.trees term) }
    ensures lemma { IfOk result (IsLemma draft.new) }
    ensures tree { IfOk result (λ m. (ty body : Tree) → tree_at draft.old.trees lemma.formula
        ≡ Two HForall ty body → tree_at draft.new.trees m.formula
        ≡ inst body (tree_at draft.old.trees term)) }
    ensures grows { Extends draft.old draft.new }
{
    let body = under_forall(draft, lemma.formula);
    let alloc = draft.allocator();
    let formula = instance(alloc, draft, body, term)?;
    let step = refute_instance(draft, lemma, term, formula)?;
    Ok(Lemma { formula, step })
}

/// A universal lemma at the closed terms of a list, one after another.
pub(crate) fn lemma_at_terms(
    draft: &mut Draft,
    lemma: Lemma,
    terms: TermId,
) -> Result<Lemma, AllocError>
    requires lemma { IsLemma draft.old lemma }
    requires terms_held { Holds draft.old.trees terms }
    requires terms { TakesTerms draft.old.task (tree_at draft.old.trees lemma.formula)
        (tree_at draft.old.trees terms) }
    ensures lemma { IfOk result (IsLemma draft.new) }
    ensures tree { IfOk result (λ m. tree_at draft.new.trees m.formula ≡ for_all_at
        (tree_at draft.old.trees lemma.formula) (members (tree_at draft.old.trees terms))) }
    ensures grows { Extends draft.old draft.new }
{
    match draft.store().node(terms) {
        Node::Cell(first, rest) => {
            let next = lemma_at_term(draft, lemma, first)?;
            let made = lemma_at_terms(draft, next, rest)?;
            Ok(made)
        }
        _ => Ok(lemma),
    }
}
