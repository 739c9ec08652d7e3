// Two quantified formulas of one type, from their bodies at a new parameter.
ghost use Rattle.std.specs.Prelude.{◌≡◌, ◌≤◌, [], ◌∷◌, true, false, IfOk};
ghost use Rattle.trees.specs.Tree.{Two, above_params};
ghost use Rattle.trees.specs.Node.{tree_at, Holds};
ghost use Rattle.trees.specs.Binding.{inst, Param};
ghost use Rattle.tasks.specs.Task.{neg};
ghost use Rattle.evidence.specs.Drafts.{Extends, Refutes, IsFormulaAt};
ghost use Rattle.congruence.specs.Alike.{HasHalves, IsClosedAt, ArePair, Shows};
ghost use Rattle.congruence.specs.Quantifiers.{quantifier_head, IsQuantifierHeld, IsQuantifiedAt};

use crate::alike::{AlikeBy, Halves, make_halves};
use evidence::proof_scripts::{Line, Places, Word, derive};
use evidence::{Draft, negation};
use std::alloc::AllocError;
use trees::TermId;

/// A quantifier over a type, and a parameter of that type.
#[derive(Clone, Copy)]
pub(crate) struct Quantifier {
    universal: bool,
    ty: TermId,
    number: usize,
    term: TermId,
}

impl Quantifier {
    fn new(universal: bool, ty: TermId, number: usize, term: TermId) -> Quantifier
        ensures { result ≡ record { universal = universal; ty = ty; number = number; term = term } }
    {
        Quantifier {
            universal,
            ty,
            number,
            term,
        }
    }
}

/// A quantified formula, its body, and the body at the quantifier's parameter.
#[derive(Clone, Copy)]
pub(crate) struct Quantified {
    whole: TermId,
    body: TermId,
    at_parameter: TermId,
}

impl Quantified {
    fn new(whole: TermId, body: TermId, at_parameter: TermId) -> Quantified
        ensures { result ≡ record { whole = whole; body = body; at_parameter = at_parameter } }
    {
        Quantified {
            whole,
            body,
            at_parameter,
        }
    }
}

// [forall x. a; not forall x. b], from [a[c]; not b[c]] at a new parameter.
fn half_forall(
    draft: &mut Draft,
    quantifier: Quantifier,
    left: Quantified,
    right: Quantified,
    step: usize,
) -> Result<usize, AllocError>
    requires quantifier { IsQuantifierHeld draft.old quantifier }
    requires kind { quantifier.universal ≡ true }
    requires left { IsQuantifiedAt draft.old quantifier left }
    requires right { IsQuantifiedAt draft.old quantifier right }
    requires step { Refutes draft.old step (tree_at draft.old.trees left.at_parameter
        ∷ neg (tree_at draft.old.trees right.at_parameter) ∷ []) }
    ensures refutes { IfOk result (λ k. Refutes draft.new k
        (tree_at draft.old.trees left.whole ∷ neg (tree_at draft.old.trees right.whole) ∷ [])) }
    ensures grows { Extends draft.old draft.new }
{
    let negated = negation(draft, right.whole)?;
    derive(
        draft,
        &[],
        &[left.whole, negated],
        &[
            Line::Rule(Word::NotForall(1, quantifier.number)),
            Line::Rule(Word::Forall(0, quantifier.term)),
            Line::Kept(step, Places::Two(3, 2)),
        ],
    )
}

// [exists x. a; not exists x. b], from [a[c]; not b[c]] at a new parameter.
fn half_exists(
    draft: &mut Draft,
    quantifier: Quantifier,
    left: Quantified,
    right: Quantified,
    step: usize,
) -> Result<usize, AllocError>
    requires quantifier { IsQuantifierHeld draft.old quantifier }
    requires kind { quantifier.universal ≡ false }
    requires left { IsQuantifiedAt draft.old quantifier left }
    requires right { IsQuantifiedAt draft.old quantifier right }
    requires step { Refutes draft.old step (tree_at draft.old.trees left.at_parameter
        ∷ neg (tree_at draft.old.trees right.at_parameter) ∷ []) }
    ensures refutes { IfOk result (λ k. Refutes draft.new k
        (tree_at draft.old.trees left.whole ∷ neg (tree_at draft.old.trees right.whole) ∷ [])) }
    ensures grows { Extends draft.old draft.new }
{
    let negated = negation(draft, right.whole)?;
    derive(
        draft,
        &[],
        &[left.whole, negated],
        &[
            Line::Rule(Word::Exists(0, quantifier.number)),
            Line::Rule(Word::NotExists(1, quantifier.term)),
            Line::Kept(step, Places::Two(2, 3)),
        ],
    )
}

// [Q x. a; not Q x. b], from [a[c]; not b[c]] at a new parameter.
fn half_under(
    draft: &mut Draft,
    quantifier: Quantifier,
    left: Quantified,
    right: Quantified,
    step: usize,
) -> Result<usize, AllocError>
    requires quantifier { IsQuantifierHeld draft.old quantifier }
    requires left { IsQuantifiedAt draft.old quantifier left }
    requires right { IsQuantifiedAt draft.old quantifier right }
    requires step { Refutes draft.old step (tree_at draft.old.trees left.at_parameter
        ∷ neg (tree_at draft.old.trees right.at_parameter) ∷ []) }
    ensures refutes { IfOk result (λ k. Refutes draft.new k
        (tree_at draft.old.trees left.whole ∷ neg (tree_at draft.old.trees right.whole) ∷ [])) }
    ensures grows { Extends draft.old draft.new }
{
    if quantifier.universal {
        half_forall(draft, quantifier, left, right, step)
    } else {
        half_exists(draft, quantifier, left, right, step)
    }
}

// The halves of two quantified formulas, from those of their bodies at a new parameter.
#[tactic(auto, using(evidence::specs::Laws::Extends_trans, evidence::proofs::Rules::refutes_later, evidence::proofs::Formulas::formula_later, crate::proofs::Later::tree_later, crate::proofs::Later::held_later, crate::proofs::Later::closed_later))]
fn quantified_halves(
    draft: &mut Draft,
    quantifier: Quantifier,
    left: Quantified,
    right: Quantified,
    parts: Halves,
) -> Result<Halves, AllocError>
    requires quantifier { IsQuantifierHeld draft.old quantifier }
    requires left { IsQuantifiedAt draft.old quantifier left }
    requires right { IsQuantifiedAt draft.old quantifier right }
    requires parts { HasHalves draft.old (tree_at draft.old.trees left.at_parameter)
        (tree_at draft.old.trees right.at_parameter) parts.there parts.back }
    ensures halves { IfOk result (λ h. HasHalves draft.new (tree_at draft.old.trees left.whole)
        (tree_at draft.old.trees right.whole) h.there h.back) }
    ensures grows { Extends draft.old draft.new }
{
    let there = half_under(draft, quantifier, left, right, parts.there)?;
    let back = half_under(draft, quantifier, right, left, parts.back)?;
    Ok(Halves { there, back })
}

// Two quantified formulas are alike where their bodies are at a new parameter.
#[tactic(auto, using(evidence::specs::Laws::Extends_trans, evidence::proofs::Formulas::formula_later, crate::proofs::Later::tree_later, crate::proofs::Later::held_later, crate::proofs::Later::closed_later))]
fn alike_by_bodies(
    draft: &mut Draft,
    quantifier: Quantifier,
    left: Quantified,
    right: Quantified,
    alike: AlikeBy,
) -> Result<AlikeBy, AllocError>
    requires quantifier { IsQuantifierHeld draft.old quantifier }
    requires left { IsQuantifiedAt draft.old quantifier left }
    requires right { IsQuantifiedAt draft.old quantifier right }
    requires shows { Shows draft.old alike (tree_at draft.old.trees left.at_parameter)
        (tree_at draft.old.trees right.at_parameter) }
    ensures shows { IfOk result (λ w. Shows draft.new w (tree_at draft.old.trees left.whole)
        (tree_at draft.old.trees right.whole)) }
    ensures grows { Extends draft.old draft.new }
{
    let parts = make_halves(draft, left.at_parameter, right.at_parameter, alike)?;
    let made = quantified_halves(draft, quantifier, left, right, parts)?;
    Ok(AlikeBy::Formulas(made.there, made.back))
}

/// Two quantified formulas of one type are alike where their bodies are at a new parameter.
pub fn alike_quantified(
    draft: &mut Draft,
    universal: bool,
    left: TermId,
    right: TermId,
    ty: TermId,
    a: TermId,
    b: TermId,
    number: usize,
    term: TermId,
    at_a: TermId,
    at_b: TermId,
    alike: AlikeBy,
) -> Result<AlikeBy, AllocError>
    requires left { IsFormulaAt draft.old left }
    requires right { IsFormulaAt draft.old right }
    requires pair { ArePair draft.old at_a at_b }
    requires at_a { IsFormulaAt draft.old at_a }
    requires at_b { IsFormulaAt draft.old at_b }
    requires term { IsClosedAt draft.old term }
    requires ty_held { Holds draft.old.trees ty }
    requires a_held { Holds draft.old.trees a }
    requires b_held { Holds draft.old.trees b }
    requires term_is { tree_at draft.old.trees term ≡ Param number (tree_at draft.old.trees ty) }
    requires left_is { tree_at draft.old.trees left ≡ Two (quantifier_head universal)
        (tree_at draft.old.trees ty) (tree_at draft.old.trees a) }
    requires right_is { tree_at draft.old.trees right ≡ Two (quantifier_head universal)
        (tree_at draft.old.trees ty) (tree_at draft.old.trees b) }
    requires at_a_is { tree_at draft.old.trees at_a
        ≡ inst (tree_at draft.old.trees a) (Param number (tree_at draft.old.trees ty)) }
    requires at_b_is { tree_at draft.old.trees at_b
        ≡ inst (tree_at draft.old.trees b) (Param number (tree_at draft.old.trees ty)) }
    requires left_above { above_params (tree_at draft.old.trees left) ≤ number }
    requires right_above { above_params (tree_at draft.old.trees right) ≤ number }
    requires shows { Shows draft.old alike (tree_at draft.old.trees at_a)
        (tree_at draft.old.trees at_b) }
    ensures shows { IfOk result (λ w. Shows draft.new w (tree_at draft.old.trees left)
        (tree_at draft.old.trees right)) }
    ensures grows { Extends draft.old draft.new }
{
    let over = Quantifier::new(universal, ty, number, term);
    let l = Quantified::new(left, a, at_a);
    let r = Quantified::new(right, b, at_b);
    alike_by_bodies(draft, over, l, r, alike)
}
