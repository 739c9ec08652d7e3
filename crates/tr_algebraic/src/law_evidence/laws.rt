// Evidence of the laws of algebraic types: their negations, refuted.
// It depends on scripts and on the cases of a term; facts of a task in which algebraic types are symbols are cited by it.
ghost use Rattle.std.specs.Prelude.{◌≡◌, ℕ, ◌≤◌, [], ◌∷◌, length, IfOk};
ghost use Rattle.tasks.specs.trees.Tree.{Two, HEq, above_params};
ghost use Rattle.tasks.specs.trees.Node.{tree_at, Holds};
ghost use Rattle.tasks.specs.Task.{neg};
ghost use Rattle.evidence.specs.Drafts.{Extends, Refutes, IsFormulaAt};
ghost use Rattle.tr_algebraic.specs.law_evidence.Shapes.{
  Quantified,
  IsProjected,
  AreApart,
  IsProjectedOrApart,
  BeginsOpenLaw,
};
ghost use Rattle.tr_algebraic.specs.law_evidence.Laws.{IsLawOf};

use crate::algebraic_forms::LawKind;
use crate::law_evidence::cases::refute_exhaustion;
use crate::law_evidence::opening::{by_new_parameter, open_body};
use evidence::proof_scripts::{Line, Word, derive};
use evidence::{Draft, negation};
use std::alloc::AllocError;
use tasks::{Grow, Node, TermId};

// [not (C'j (C us) = uj)].
fn refute_projection(
    draft: &mut Draft,
    formula: TermId,
    whole: TermId,
    value: TermId,
) -> Result<usize, AllocError>
    requires formula { IsFormulaAt draft.old formula }
    requires is { tree_at draft.old.trees formula
        ≡ Two HEq (tree_at draft.old.trees whole) (tree_at draft.old.trees value) }
    requires whole_held { Holds draft.old.trees whole }
    requires value_held { Holds draft.old.trees value }
    requires shape { IsProjected draft.old.task (tree_at draft.old.trees formula) }
    ensures refutes { IfOk result (λ k. Refutes draft.new k
        (neg (tree_at draft.old.trees formula) ∷ [])) }
    ensures grows { Extends draft.old draft.new }
{
    let negated = negation(draft, formula)?;
    derive(
        draft,
        &[],
        &[negated],
        &[Line::Field(whole, value), Line::Rule(Word::Clash(1, 0))],
    )
}

// [not not (C us = D ws)].
fn refute_equation(
    draft: &mut Draft,
    formula: TermId,
    equation: TermId,
) -> Result<usize, AllocError>
    requires formula { IsFormulaAt draft.old formula }
    requires is { tree_at draft.old.trees formula ≡ neg (tree_at draft.old.trees equation) }
    requires shape { AreApart draft.old.task (tree_at draft.old.trees formula) }
    ensures refutes { IfOk result (λ k. Refutes draft.new k
        (neg (tree_at draft.old.trees formula) ∷ [])) }
    ensures grows { Extends draft.old draft.new }
{
    let _ = equation;
    let negated = negation(draft, formula)?;
    derive(
        draft,
        &[],
        &[negated],
        &[Line::Rule(Word::NotNot(0)), Line::Rule(Word::Distinct(1))],
    )
}

// The negation of a law of projections or of distinctness, refuted, where as many parameters as there are opened types are in it.
fn refute_open_law(
    draft: &mut Draft,
    formula: TermId,
    opened: &mut Vec<TermId>,
) -> Result<usize, AllocError>
    requires formula { IsFormulaAt draft.old formula }
    requires below { above_params (tree_at draft.old.trees formula) ≤ length opened.old.items }
    requires shape { (n : ℕ) × Quantified (IsProjectedOrApart draft.old.task) n
        (tree_at draft.old.trees formula) }
    requires begins { BeginsOpenLaw (tree_at draft.old.trees formula) }
    ensures refutes { IfOk result (λ k. Refutes draft.new k
        (neg (tree_at draft.old.trees formula) ∷ [])) }
    ensures grows { Extends draft.old draft.new }
{
    match draft.store().node(formula) {
        Node::Forall(ty, body) => {
            let fresh = opened.len();
            opened.push(ty)?;
            let inner = open_body(draft, formula, ty, body, fresh)?;
            let step = refute_open_law(draft, inner, opened)?;
            let made = by_new_parameter(draft, formula, ty, body, fresh, step)?;
            Ok(made)
        }
        Node::Eq(whole, value) => {
            let made = refute_projection(draft, formula, whole, value)?;
            Ok(made)
        }
        Node::Not(equation) => {
            let made = refute_equation(draft, formula, equation)?;
            Ok(made)
        }
        _ => unreachable!(),
    }
}

/// A step whose sequent is the negation of a law of this kind alone, where the law is at types and has no parameter.
pub fn refute_law(draft: &mut Draft, kind: LawKind, formula: TermId) -> Result<usize, AllocError>
    requires formula { IsFormulaAt draft.old formula }
    requires below { above_params (tree_at draft.old.trees formula) ≤ 0 }
    requires shape { IsLawOf draft.old.task kind (tree_at draft.old.trees formula) }
    ensures refutes { IfOk result (λ k. Refutes draft.new k
        (neg (tree_at draft.old.trees formula) ∷ [])) }
    ensures grows { Extends draft.old draft.new }
{
    let mut opened = Vec::new(draft.allocator());
    match kind {
        LawKind::Projection => {
            let made = refute_open_law(draft, formula, &mut opened)?;
            Ok(made)
        }
        LawKind::Distinctness => {
            let made = refute_open_law(draft, formula, &mut opened)?;
            Ok(made)
        }
        LawKind::Exhaustion => {
            let made = refute_exhaustion(draft, formula, 0)?;
            Ok(made)
        }
    }
}
