// Evidence of the law of exhaustion: its negation, refuted by the cases of a term.
// It depends on scripts; the evidence of laws depends on it.
ghost use Rattle.std.specs.Prelude.{◌≡◌, ◌≤◌, [], ◌∷◌, Contains, IfOk, OnOk};
ghost use Rattle.tasks.specs.trees.Tree.{Tree, Two, HJoin, above_params};
ghost use Rattle.tasks.specs.trees.Node.{tree_at, Holds};
ghost use Rattle.tasks.specs.Task.{neg};
ghost use Rattle.evidence.specs.Drafts.{Extends, Refutes, IsFormulaAt};
ghost use Rattle.evidence.specs.proof_scripts.Added.{IsExpressionAt};
ghost use Rattle.tr_algebraic.specs.law_evidence.Shapes.{disjuncts, AreCases, HasCasesOf, BeginsCases};
ghost use Rattle.tr_algebraic.specs.law_evidence.CaseSteps.{IsDisjunction, IsLaterStep, IsPartOf, MakeCases};

use crate::law_evidence::opening::{by_new_parameter, open_body};
use evidence::proof_scripts::{Line, Places, Word, derive};
use evidence::{Draft, by_rule, negation};
use kernel::Rule;
use std::alloc::AllocError;
use tasks::typed_trees::instances::parameter;
use tasks::{Grow, Node, Op, Store, TermId};

// A formula as a disjunction that is nested to the right: of none, of itself alone, of a first formula and the others.
#[derive(Clone, Copy)]
enum Disjunction {
    Empty,
    Alone,
    Parts(TermId, TermId),
}

// What disjunction a formula is.
fn as_disjunction(store: &Store, e: TermId) -> Disjunction
    requires { Holds store.now e }
    ensures { IsDisjunction store.now e result }
{
    match store.node(e) {
        Node::False => Disjunction::Empty,
        Node::Join(Op::Or, first, rest) => Disjunction::Parts(first, rest),
        _ => Disjunction::Alone,
    }
}

// [not D; d], where D is `d \/ ..`.
fn refute_first(draft: &mut Draft, whole: TermId, case: TermId) -> Result<usize, AllocError>
    requires whole { IsFormulaAt draft.old whole }
    requires case { IsFormulaAt draft.old case }
    requires is { (b : Tree) × (tree_at draft.old.trees whole
        ≡ Two (HJoin Op.Or) (tree_at draft.old.trees case) b) }
    ensures refutes { IfOk result (λ k. Refutes draft.new k
        (neg (tree_at draft.old.trees whole) ∷ tree_at draft.old.trees case ∷ [])) }
    ensures grows { Extends draft.old draft.new }
{
    let negated = negation(draft, whole)?;
    derive(
        draft,
        &[],
        &[negated, case],
        &[Line::Failing(Op::Or, 0), Line::Rule(Word::Clash(1, 2))],
    )
}

// [not D; d], where D is `a \/ b`, from [not b; d].
fn refute_later(
    draft: &mut Draft,
    whole: TermId,
    case: TermId,
    inner: usize,
) -> Result<usize, AllocError>
    requires whole { IsFormulaAt draft.old whole }
    requires case { IsFormulaAt draft.old case }
    requires inner { IsLaterStep draft.old whole case inner }
    ensures refutes { IfOk result (λ k. Refutes draft.new k
        (neg (tree_at draft.old.trees whole) ∷ tree_at draft.old.trees case ∷ [])) }
    ensures grows { Extends draft.old draft.new }
{
    let negated = negation(draft, whole)?;
    derive(
        draft,
        &[],
        &[negated, case],
        &[
            Line::Failing(Op::Or, 0),
            Line::Kept(inner, Places::Two(3, 1)),
        ],
    )
}

// [not D; d], where D is d.
fn refute_alone(draft: &mut Draft, whole: TermId, case: TermId) -> Result<usize, AllocError>
    requires whole { IsFormulaAt draft.old whole }
    requires case { IsFormulaAt draft.old case }
    requires is { tree_at draft.old.trees case ≡ tree_at draft.old.trees whole }
    ensures refutes { IfOk result (λ k. Refutes draft.new k
        (neg (tree_at draft.old.trees whole) ∷ tree_at draft.old.trees case ∷ [])) }
    ensures grows { Extends draft.old draft.new }
{
    let negated = negation(draft, whole)?;
    derive(
        draft,
        &[],
        &[negated, case],
        &[Line::Rule(Word::Clash(1, 0))],
    )
}

// [not D; d], where d is one of the formulas of the disjunction D.
fn refute_case(draft: &mut Draft, whole: TermId, case: TermId) -> Result<usize, AllocError>
    requires whole { IsFormulaAt draft.old whole }
    requires case { IsFormulaAt draft.old case }
    requires among { Contains (disjuncts (tree_at draft.old.trees whole))
        (tree_at draft.old.trees case) }
    ensures refutes { IfOk result (λ k. Refutes draft.new k
        (neg (tree_at draft.old.trees whole) ∷ tree_at draft.old.trees case ∷ [])) }
    ensures grows { Extends draft.old draft.new }
{
    match as_disjunction(draft.store(), whole) {
        Disjunction::Parts(first, rest) => {
            if draft.store().same(first, case) {
                let made = refute_first(draft, whole, case)?;
                return Ok(made);
            }
            let inner = refute_case(draft, rest, case)?;
            let made = refute_later(draft, whole, case, inner)?;
            Ok(made)
        }
        Disjunction::Alone => {
            let made = refute_alone(draft, whole, case)?;
            Ok(made)
        }
        Disjunction::Empty => unreachable!(),
    }
}

// A step for each formula of a disjunction whose formulas are among those of D, after others.
fn refute_cases(
    draft: &mut Draft,
    whole: TermId,
    part: TermId,
    steps: &mut Vec<usize>,
) -> Result<(), AllocError>
    requires whole { IsFormulaAt draft.old whole }
    requires part { IsPartOf draft.old whole part }
    ensures steps { OnOk result (MakeCases draft.old draft.new whole part
        steps.old.items steps.new.items) }
    ensures grows { Extends draft.old draft.new }
{
    match as_disjunction(draft.store(), part) {
        Disjunction::Parts(first, rest) => {
            let step = refute_case(draft, whole, first)?;
            steps.push(step)?;
            refute_cases(draft, whole, rest, steps)?;
            Ok(())
        }
        Disjunction::Alone => {
            let step = refute_case(draft, whole, part)?;
            steps.push(step)?;
            Ok(())
        }
        Disjunction::Empty => Ok(()),
    }
}

// [not D], where D has the cases of a term.
fn refute_by_cases(draft: &mut Draft, term: TermId, whole: TermId) -> Result<usize, AllocError>
    requires term { IsExpressionAt draft.old term }
    requires whole { IsFormulaAt draft.old whole }
    requires cases { HasCasesOf draft.old.task (tree_at draft.old.trees term)
        (tree_at draft.old.trees whole) }
    ensures refutes { IfOk result (λ k. Refutes draft.new k
        (neg (tree_at draft.old.trees whole) ∷ [])) }
    ensures grows { Extends draft.old draft.new }
{
    let negated = negation(draft, whole)?;
    let mut steps = Vec::new(draft.allocator());
    refute_cases(draft, whole, whole, &mut steps)?;
    let made = by_rule(draft, &[], &[negated], Rule::Case(term), &steps)?;
    Ok(made)
}

/// The negation of a law of exhaustion, refuted, where parameters below this number are in it.
pub(crate) fn refute_exhaustion(
    draft: &mut Draft,
    formula: TermId,
    fresh: usize,
) -> Result<usize, AllocError>
    requires formula { IsFormulaAt draft.old formula }
    requires below { above_params (tree_at draft.old.trees formula) ≤ fresh }
    requires shape { AreCases draft.old.task (tree_at draft.old.trees formula) }
    requires begins { BeginsCases (tree_at draft.old.trees formula) }
    ensures refutes { IfOk result (λ k. Refutes draft.new k
        (neg (tree_at draft.old.trees formula) ∷ [])) }
    ensures grows { Extends draft.old draft.new }
{
    match draft.store().node(formula) {
        Node::Forall(ty, body) => {
            let inner = open_body(draft, formula, ty, body, fresh)?;
            let term = parameter(draft, fresh, ty)?;
            let step = refute_by_cases(draft, term, inner)?;
            let made = by_new_parameter(draft, formula, ty, body, fresh, step)?;
            Ok(made)
        }
        _ => unreachable!(),
    }
}
