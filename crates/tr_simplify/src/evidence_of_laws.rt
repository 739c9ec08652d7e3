// Evidence that a closed expression is alike what a law makes of it.
ghost use Rattle.std.specs.Prelude.{◌≡◌, ◌≤◌, [], ◌∷◌, false, IfOk};
ghost use Rattle.trees.specs.Tree.{One, Two, Three, HNot, HJoin, HIf, above_params};
ghost use Rattle.trees.specs.Node.{tree_at, Holds};
ghost use Rattle.trees.specs.Facts.{is_open};
ghost use Rattle.tasks.specs.Task.{neg};
ghost use Rattle.rules.specs.Forms.{alike};
ghost use Rattle.evidence.specs.Drafts.{DraftTree, Extends, AddsTrees, Refutes, IsFormulaAt};
ghost use Rattle.evidence.specs.proof_scripts.Scripts.{LinesHeld, Follows, lines_at};
ghost use Rattle.congruence.specs.Alike.{ArePair, Shows};
ghost use Rattle.congruence.specs.Quantifiers.{quantifier_head};
ghost use Rattle.tr_simplify.specs.Laws.{simplify_rule};

use crate::constants::constant_of;
use crate::laws::{LawResult, TruthValue, law_for};
use crate::opening::is_open;
use crate::scripts::{law_lines, not_lines};
use congruence::{AlikeBy, alike_by_step, parameter};
use evidence::proof_scripts::{Line, Word, derive};
use evidence::{Draft, negation};
use std::alloc::AllocError;
use tasks::Grow;
use trees::{Node, Op, Sort, TermId};

// `l = r` for terms, `l <-> r` for formulas.
fn claim(draft: &mut Draft, l: TermId, r: TermId) -> Result<TermId, AllocError>
    requires pair { ArePair draft.old l r }
    ensures formula { IfOk result (IsFormulaAt draft.new) }
    ensures tree { IfOk result (λ id. tree_at draft.new.trees id
        ≡ alike (tree_at draft.old.trees l) (tree_at draft.old.trees r)) }
    ensures grows { AddsTrees draft.old draft.new }
{
    match draft.store().sort(l) {
        Sort::Term => draft.add(Node::Eq(l, r)),
        _ => draft.add(Node::Join(Op::Iff, l, r)),
    }
}

// The negation of the claim.
fn denial(draft: &mut Draft, l: TermId, r: TermId) -> Result<TermId, AllocError>
    requires pair { ArePair draft.old l r }
    ensures formula { IfOk result (IsFormulaAt draft.new) }
    ensures tree { IfOk result (λ id. tree_at draft.new.trees id
        ≡ neg (alike (tree_at draft.old.trees l) (tree_at draft.old.trees r))) }
    ensures grows { AddsTrees draft.old draft.new }
{
    let claimed = claim(draft, l, r)?;
    let made = negation(draft, claimed)?;
    Ok(made)
}

// [not (l ~ r)], by lines that refute it.
fn refute_denial(
    draft: &mut Draft,
    left: TermId,
    right: TermId,
    lines: &[Line],
) -> Result<usize, AllocError>
    requires pair { ArePair draft.old left right }
    requires held { (d : DraftTree) → Extends draft.old d → LinesHeld d lines.now }
    requires follow { (d : DraftTree) → Extends draft.old d
        → Follows d [] (lines_at d.trees lines.now)
        ((neg (alike (tree_at draft.old.trees left) (tree_at draft.old.trees right)) ∷ []) ∷ []) }
    ensures refutes { IfOk result (λ k. Refutes draft.new k
        (neg (alike (tree_at draft.old.trees left) (tree_at draft.old.trees right)) ∷ [])) }
    ensures grows { Extends draft.old draft.new }
{
    let goal = denial(draft, left, right)?;
    derive(draft, &[], &[goal], lines)
}

// Two expressions are alike, by lines that refute the negation of that.
fn alike_by_lines(
    draft: &mut Draft,
    left: TermId,
    right: TermId,
    lines: &[Line],
) -> Result<AlikeBy, AllocError>
    requires pair { ArePair draft.old left right }
    requires held { (d : DraftTree) → Extends draft.old d → LinesHeld d lines.now }
    requires follow { (d : DraftTree) → Extends draft.old d
        → Follows d [] (lines_at d.trees lines.now)
        ((neg (alike (tree_at draft.old.trees left) (tree_at draft.old.trees right)) ∷ []) ∷ []) }
    ensures shows { IfOk result (λ w. Shows draft.new w (tree_at draft.old.trees left)
        (tree_at draft.old.trees right)) }
    ensures grows { Extends draft.old draft.new }
{
    let step = refute_denial(draft, left, right, lines)?;
    let made = alike_by_step(draft, left, right, step)?;
    Ok(made)
}

// A negation and what the laws make of it.
fn alike_not(
    draft: &mut Draft,
    left: TermId,
    right: TermId,
    a: TermId,
) -> Result<AlikeBy, AllocError>
    requires pair { ArePair draft.old left right }
    requires a_held { Holds draft.old.trees a }
    requires node { tree_at draft.old.trees left ≡ One HNot (tree_at draft.old.trees a) }
    requires is { tree_at draft.old.trees right ≡ simplify_rule (tree_at draft.old.trees left) }
    ensures shows { IfOk result (λ w. Shows draft.new w (tree_at draft.old.trees left)
        (tree_at draft.old.trees right)) }
    ensures grows { Extends draft.old draft.new }
{
    let known = constant_of(draft, a);
    if let TruthValue::Other = known {
        return Ok(AlikeBy::Same);
    }
    let lines = not_lines(draft.allocator(), known)?;
    let made = alike_by_lines(draft, left, right, &lines)?;
    Ok(made)
}

// A connective and what the laws make of it.
fn alike_join(
    draft: &mut Draft,
    left: TermId,
    right: TermId,
    op: Op,
    a: TermId,
    b: TermId,
) -> Result<AlikeBy, AllocError>
    requires pair { ArePair draft.old left right }
    requires a_held { Holds draft.old.trees a }
    requires b_held { Holds draft.old.trees b }
    requires node { tree_at draft.old.trees left
        ≡ Two (HJoin op) (tree_at draft.old.trees a) (tree_at draft.old.trees b) }
    requires is { tree_at draft.old.trees right ≡ simplify_rule (tree_at draft.old.trees left) }
    ensures shows { IfOk result (λ w. Shows draft.new w (tree_at draft.old.trees left)
        (tree_at draft.old.trees right)) }
    ensures grows { Extends draft.old draft.new }
{
    let first = constant_of(draft, a);
    let second = constant_of(draft, b);
    if let LawResult::Stays = law_for(op, first, second) {
        return Ok(AlikeBy::Same);
    }
    let lines = law_lines(draft.allocator(), op, first, second)?;
    let made = alike_by_lines(draft, left, right, &lines)?;
    Ok(made)
}

// An `if` and what the laws make of it.
fn alike_if(
    draft: &mut Draft,
    left: TermId,
    right: TermId,
    c: TermId,
    a: TermId,
    b: TermId,
) -> Result<AlikeBy, AllocError>
    requires pair { ArePair draft.old left right }
    requires c_held { Holds draft.old.trees c }
    requires node { tree_at draft.old.trees left ≡ Three HIf (tree_at draft.old.trees c)
        (tree_at draft.old.trees a) (tree_at draft.old.trees b) }
    requires is { tree_at draft.old.trees right ≡ simplify_rule (tree_at draft.old.trees left) }
    ensures shows { IfOk result (λ w. Shows draft.new w (tree_at draft.old.trees left)
        (tree_at draft.old.trees right)) }
    ensures grows { Extends draft.old draft.new }
{
    let _ = a;
    let _ = b;
    let define = Line::Rule(Word::IfDef(left));
    let open = Line::Holding(Op::And, 1);
    let last = Line::Rule(Word::Clash(4, 0));
    match constant_of(draft, c) {
        TruthValue::True => {
            let apart = Line::Rule(Word::NotTrue(4));
            let then_holds = Line::Holding(Op::Imp, 2);
            alike_by_lines(draft, left, right, &[define, open, then_holds, apart, last])
        }
        TruthValue::False => {
            let apart = Line::Rule(Word::NotNot(4));
            let absurd = Line::Rule(Word::False(5));
            let else_holds = Line::Holding(Op::Imp, 3);
            alike_by_lines(
                draft,
                left,
                right,
                &[define, open, else_holds, apart, absurd, last],
            )
        }
        TruthValue::Other => Ok(AlikeBy::Same),
    }
}

// A quantifier whose variable isn't used, and its body, at a new parameter.
fn alike_body(
    draft: &mut Draft,
    left: TermId,
    right: TermId,
    universal: bool,
    ty: TermId,
    body: TermId,
    number: usize,
) -> Result<AlikeBy, AllocError>
    requires pair { ArePair draft.old left right }
    requires ty_held { Holds draft.old.trees ty }
    requires body_held { Holds draft.old.trees body }
    requires above { above_params (tree_at draft.old.trees left) ≤ number }
    requires node { tree_at draft.old.trees left ≡ Two (quantifier_head universal)
        (tree_at draft.old.trees ty) (tree_at draft.old.trees body) }
    requires free { is_open 0 (tree_at draft.old.trees body) ≡ false }
    requires is { tree_at draft.old.trees right ≡ simplify_rule (tree_at draft.old.trees left) }
    ensures shows { IfOk result (λ w. Shows draft.new w (tree_at draft.old.trees left)
        (tree_at draft.old.trees right)) }
    ensures grows { Extends draft.old draft.new }
{
    let _ = body;
    let term = parameter(draft, number, ty)?;
    let deny = Line::Failing(Op::Iff, 0);
    let there = Line::Rule(Word::Clash(3, 2));
    let back = Line::Rule(Word::Clash(2, 3));
    if universal {
        let at = Line::Rule(Word::Forall(1, term));
        let new = Line::Rule(Word::NotForall(1, number));
        alike_by_lines(draft, left, right, &[deny, at, there, new, back])
    } else {
        let new = Line::Rule(Word::Exists(1, number));
        let at = Line::Rule(Word::NotExists(1, term));
        alike_by_lines(draft, left, right, &[deny, new, there, at, back])
    }
}

// A quantifier and what the laws make of it.
fn alike_quantified(
    draft: &mut Draft,
    left: TermId,
    right: TermId,
    universal: bool,
    ty: TermId,
    body: TermId,
    number: usize,
) -> Result<AlikeBy, AllocError>
    requires pair { ArePair draft.old left right }
    requires ty_held { Holds draft.old.trees ty }
    requires body_held { Holds draft.old.trees body }
    requires above { above_params (tree_at draft.old.trees left) ≤ number }
    requires node { tree_at draft.old.trees left ≡ Two (quantifier_head universal)
        (tree_at draft.old.trees ty) (tree_at draft.old.trees body) }
    requires is { tree_at draft.old.trees right ≡ simplify_rule (tree_at draft.old.trees left) }
    ensures shows { IfOk result (λ w. Shows draft.new w (tree_at draft.old.trees left)
        (tree_at draft.old.trees right)) }
    ensures grows { Extends draft.old draft.new }
{
    if is_open(draft.store(), body, 0) {
        return Ok(AlikeBy::Same);
    }
    alike_body(draft, left, right, universal, ty, body, number)
}

/// Evidence that a closed expression and what the laws make of it are alike. No parameter from the number on is in it.
pub(crate) fn alike_simplified(
    draft: &mut Draft,
    left: TermId,
    right: TermId,
    number: usize,
) -> Result<AlikeBy, AllocError>
    requires pair { ArePair draft.old left right }
    requires above { above_params (tree_at draft.old.trees left) ≤ number }
    requires is { tree_at draft.old.trees right ≡ simplify_rule (tree_at draft.old.trees left) }
    ensures shows { IfOk result (λ w. Shows draft.new w (tree_at draft.old.trees left)
        (tree_at draft.old.trees right)) }
    ensures grows { Extends draft.old draft.new }
{
    match draft.store().node(left) {
        Node::Not(a) => alike_not(draft, left, right, a),
        Node::Join(op, a, b) => alike_join(draft, left, right, op, a, b),
        Node::Forall(ty, body) => alike_quantified(draft, left, right, true, ty, body, number),
        Node::Exists(ty, body) => alike_quantified(draft, left, right, false, ty, body, number),
        Node::If(c, a, b) => alike_if(draft, left, right, c, a, b),
        _ => Ok(AlikeBy::Same),
    }
}
