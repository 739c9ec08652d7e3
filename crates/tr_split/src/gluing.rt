// From steps that refute the parts of a goal, one that refutes the goal's negation.
ghost use Rattle.std.specs.Prelude.{◌≡◌, ◌++◌, length, min, IfOk};
ghost use Rattle.tasks.specs.trees.Tree.{Tree, Two, Three, HForall, HLet, HIf, HJoin};
ghost use Rattle.tasks.specs.trees.Node.{tree_at, Holds};
ghost use Rattle.tasks.specs.Meaning.{trees_at};
ghost use Rattle.evidence.specs.Drafts.{Extends, AddsTrees, IsFormulaAt, AreFormulas};
ghost use Rattle.tr_split.specs.parts.Split.{split};
ghost use Rattle.tr_split.specs.parts.Glue.{EndsOfParts};
ghost use Rattle.tr_split.specs.parts.Parts.{Joins};
ghost use Rattle.tr_split.specs.Goals.{AreParamsBelow};
ghost use Rattle.tr_split.specs.Gluing.{IsFormulaPair, CanGlue, RefutesGoal, IsGlued};

use crate::opening::{open_universal, open_valued};
use crate::over::{Over, ends_over};
use crate::refuting::refute_goal;
use evidence::proof_scripts::{Line, Word};
use evidence::{Draft, join_lists, negation};
use std::alloc::AllocError;
use tasks::{Grow, Node, Op, Store, TermId};

/// The two formulas that are joined, or from which an `if` takes one.
#[derive(Clone, Copy)]
struct FormulaPair {
    left: TermId,
    right: TermId,
}

// Two formulas joined.
fn connect(draft: &mut Draft, op: Op, a: TermId, b: TermId) -> Result<TermId, AllocError>
    requires a { IsFormulaAt draft.old a }
    requires b { IsFormulaAt draft.old b }
    ensures formula { IfOk result (IsFormulaAt draft.new) }
    ensures tree { IfOk result (λ id. tree_at draft.new.trees id
        ≡ Two (HJoin op) (tree_at draft.old.trees a) (tree_at draft.old.trees b)) }
    ensures grows { AddsTrees draft.old draft.new }
{
    draft.add(Node::Join(op, a, b))
}

// The number of the parts of a formula, or the greatest number.
fn part_count(store: &Store, formula: TermId) -> usize
    requires { Holds store.now formula }
    ensures { result ≡ min (length (split (tree_at store.now formula))) usize.MAX }
{
    match store.node(formula) {
        Node::True => 0,
        Node::Join(op, a, b) => joined_count(op, part_count(store, a), part_count(store, b)),
        Node::Forall(_, a) | Node::Let(_, a) => part_count(store, a),
        Node::If(_, a, b) => part_count(store, a).saturating_add(part_count(store, b)),
        _ => 1,
    }
}

// The number of the parts of two formulas that are joined, by the numbers of theirs.
fn joined_count(op: Op, left: usize, right: usize) -> usize
    ensures { (a b : Tree) → left ≡ min (length (split a)) usize.MAX → right
        ≡ min (length (split b)) usize.MAX → result
        ≡ min (length (split (Two (HJoin op) a b))) usize.MAX }
{
    match op {
        Op::And | Op::AndThen => left.saturating_add(right),
        Op::Imp => right,
        Op::Iff => 2,
        Op::Or | Op::OrElse => 1,
    }
}

// From steps that refute the parts of the goal over these formulas, whose parameters have these types and no others are in them,
// one that refutes the formulas and the negated goal.
#[cycle(glue)]
pub(crate) fn glue_goal(
    draft: &mut Draft,
    front: &[TermId],
    goal: TermId,
    params: &[TermId],
    ends: &[usize],
) -> Result<usize, AllocError>
    requires can { CanGlue draft.old front.now goal (length params.now) ends.now }
    ensures refutes { IfOk result (RefutesGoal draft.old draft.new front.now goal) }
    ensures grows { Extends draft.old draft.new }
{
    match draft.store().node(goal) {
        Node::True => refute_goal(draft, front, goal, &[Line::Rule(Word::NotTrue(0))]),
        Node::Join(op, left, right) => {
            let pair = FormulaPair { left, right };
            glue_joined(draft, front, goal, op, pair, params, ends)
        }
        Node::Forall(ty, body) => glue_forall(draft, front, goal, ty, body, params, ends),
        Node::Let(value, body) => glue_let(draft, front, goal, value, body, params, ends),
        Node::If(cond, left, right) => {
            let pair = FormulaPair { left, right };
            glue_if(draft, front, goal, cond, pair, params, ends)
        }
        _ => Ok(ends[0]),
    }
}

// From steps that refute the parts, one that refutes the formulas and the negated goal, which joins two formulas.
#[cycle(glue)]
fn glue_joined(
    draft: &mut Draft,
    front: &[TermId],
    goal: TermId,
    op: Op,
    pair: FormulaPair,
    params: &[TermId],
    ends: &[usize],
) -> Result<usize, AllocError>
    requires can { CanGlue draft.old front.now goal (length params.now) ends.now }
    requires joins { Joins draft.old.trees goal op pair.left pair.right }
    ensures refutes { IfOk result (RefutesGoal draft.old draft.new front.now goal) }
    ensures grows { Extends draft.old draft.new }
{
    match op {
        Op::And => glue_and(draft, front, goal, pair, params, ends),
        Op::AndThen => glue_and_then(draft, front, goal, pair, params, ends),
        Op::Imp => glue_imp(draft, front, goal, pair, params, ends),
        Op::Iff => glue_iff(draft, front, goal, pair, ends),
        Op::Or | Op::OrElse => Ok(ends[0]),
    }
}

// From steps that refute the parts of two formulas, those of the first one first, a step for each formula's negation.
#[cycle(glue)]
fn glue_two(
    draft: &mut Draft,
    front: &[TermId],
    a: TermId,
    b: TermId,
    params: &[TermId],
    ends: &[usize],
) -> Result<(usize, usize), AllocError>
    requires front { AreFormulas draft.old front.now }
    requires a { IsFormulaAt draft.old a }
    requires b { IsFormulaAt draft.old b }
    requires below_a { AreParamsBelow (length params.now) (trees_at draft.old.trees front.now)
        (tree_at draft.old.trees a) }
    requires below_b { AreParamsBelow (length params.now) (trees_at draft.old.trees front.now)
        (tree_at draft.old.trees b) }
    requires ends { EndsOfParts draft.old ends.now (trees_at draft.old.trees front.now)
        (split (tree_at draft.old.trees a) ++ split (tree_at draft.old.trees b)) }
    ensures left { IfOk result (λ r. RefutesGoal draft.old draft.new front.now a r.0) }
    ensures right { IfOk result (λ r. RefutesGoal draft.old draft.new front.now b r.1) }
    ensures grows { Extends draft.old draft.new }
{
    let count = part_count(draft.store(), a);
    let (first, second) = ends.split_at(count);
    let left = glue_goal(draft, front, a, params, first)?;
    let right = glue_goal(draft, front, b, params, second)?;
    Ok((left, right))
}

// From steps that refute the parts, one that refutes the formulas and a negated conjunction.
#[cycle(glue)]
fn glue_and(
    draft: &mut Draft,
    front: &[TermId],
    goal: TermId,
    pair: FormulaPair,
    params: &[TermId],
    ends: &[usize],
) -> Result<usize, AllocError>
    requires can { CanGlue draft.old front.now goal (length params.now) ends.now }
    requires joins { Joins draft.old.trees goal Op.And pair.left pair.right }
    ensures { IsGlued draft.old draft.new front.now goal result }
{
    let (left, right) = glue_two(draft, front, pair.left, pair.right, params, ends)?;
    let lines = [
        Line::Failing(Op::And, 0),
        Line::Given(left, 1),
        Line::Given(right, 1),
    ];
    refute_goal(draft, front, goal, &lines)
}

// From steps that refute the parts, one that refutes the formulas and a negated conjunction by `&&`.
#[cycle(glue)]
fn glue_and_then(
    draft: &mut Draft,
    front: &[TermId],
    goal: TermId,
    pair: FormulaPair,
    params: &[TermId],
    ends: &[usize],
) -> Result<usize, AllocError>
    requires can { CanGlue draft.old front.now goal (length params.now) ends.now }
    requires joins { Joins draft.old.trees goal Op.AndThen pair.left pair.right }
    ensures { IsGlued draft.old draft.new front.now goal result }
{
    let implied = connect(draft, Op::Imp, pair.left, pair.right)?;
    let (left, right) = glue_two(draft, front, pair.left, implied, params, ends)?;
    let lines = [
        Line::Cut(implied),
        Line::Failing(Op::AndThen, 0),
        Line::Given(left, 1),
        Line::Holding(Op::Imp, 1),
        Line::Given(left, 1),
        Line::Rule(Word::Clash(3, 2)),
        Line::Given(right, 1),
    ];
    refute_goal(draft, front, goal, &lines)
}

// From steps that refute the parts, one that refutes the formulas and a negated implication.
#[cycle(glue)]
fn glue_imp(
    draft: &mut Draft,
    front: &[TermId],
    goal: TermId,
    pair: FormulaPair,
    params: &[TermId],
    ends: &[usize],
) -> Result<usize, AllocError>
    requires can { CanGlue draft.old front.now goal (length params.now) ends.now }
    requires joins { Joins draft.old.trees goal Op.Imp pair.left pair.right }
    ensures { IsGlued draft.old draft.new front.now goal result }
{
    let made = ends_over(draft, front, Over::Hypothesis(pair.left), pair.right, ends)?;
    let wider = join_lists(draft.allocator(), front, &[pair.left])?;
    let step = glue_goal(draft, &wider, pair.right, params, &made)?;
    let lines = [Line::Failing(Op::Imp, 0), Line::Given(step, 2)];
    refute_goal(draft, front, goal, &lines)
}

// From steps that refute the parts, one that refutes the formulas and a negated equivalence.
fn glue_iff(
    draft: &mut Draft,
    front: &[TermId],
    goal: TermId,
    pair: FormulaPair,
    ends: &[usize],
) -> Result<usize, AllocError>
    requires front { AreFormulas draft.old front.now }
    requires goal { IsFormulaAt draft.old goal }
    requires ends { EndsOfParts draft.old ends.now (trees_at draft.old.trees front.now)
        (split (tree_at draft.old.trees goal)) }
    requires joins { Joins draft.old.trees goal Op.Iff pair.left pair.right }
    ensures { IsGlued draft.old draft.new front.now goal result }
{
    let there = connect(draft, Op::Imp, pair.left, pair.right)?;
    let back = connect(draft, Op::Imp, pair.right, pair.left)?;
    let lines = [
        Line::Cut(there),
        Line::Cut(back),
        Line::Failing(Op::Iff, 0),
        Line::Holding(Op::Imp, 1),
        Line::Rule(Word::Clash(3, 5)),
        Line::Rule(Word::Clash(5, 4)),
        Line::Holding(Op::Imp, 2),
        Line::Rule(Word::Clash(4, 5)),
        Line::Rule(Word::Clash(5, 3)),
        Line::Given(ends[1], 1),
        Line::Given(ends[0], 1),
    ];
    refute_goal(draft, front, goal, &lines)
}

// From steps that refute the parts, one that refutes the formulas and a negated quantifier.
#[cycle(glue)]
fn glue_forall(
    draft: &mut Draft,
    front: &[TermId],
    goal: TermId,
    ty: TermId,
    body: TermId,
    params: &[TermId],
    ends: &[usize],
) -> Result<usize, AllocError>
    requires can { CanGlue draft.old front.now goal (length params.now) ends.now }
    requires tree { tree_at draft.old.trees goal
        ≡ Two HForall (tree_at draft.old.trees ty) (tree_at draft.old.trees body) }
    requires ty_held { Holds draft.old.trees ty }
    requires body_held { Holds draft.old.trees body }
    ensures { IsGlued draft.old draft.new front.now goal result }
{
    let number = params.len();
    let (inner, made) = open_universal(draft, front, goal, ty, body, number, ends)?;
    let wider = join_lists(draft.allocator(), params, &[ty])?;
    let step = glue_goal(draft, front, inner, &wider, &made)?;
    let lines = [Line::Rule(Word::NotForall(0, number)), Line::Given(step, 1)];
    refute_goal(draft, front, goal, &lines)
}

// From steps that refute the parts, one that refutes the formulas and a negated `let`.
#[cycle(glue)]
fn glue_let(
    draft: &mut Draft,
    front: &[TermId],
    goal: TermId,
    value: TermId,
    body: TermId,
    params: &[TermId],
    ends: &[usize],
) -> Result<usize, AllocError>
    requires can { CanGlue draft.old front.now goal (length params.now) ends.now }
    requires tree { tree_at draft.old.trees goal
        ≡ Two HLet (tree_at draft.old.trees value) (tree_at draft.old.trees body) }
    requires value_held { Holds draft.old.trees value }
    requires body_held { Holds draft.old.trees body }
    ensures { IsGlued draft.old draft.new front.now goal result }
{
    let (inner, made) = open_valued(draft, front, goal, value, body, params.len(), ends)?;
    let step = glue_goal(draft, front, inner, params, &made)?;
    let lines = [
        Line::Rule(Word::LetDef(goal)),
        Line::Holding(Op::Iff, 1),
        Line::Rule(Word::Clash(2, 0)),
        Line::Given(step, 1),
    ];
    refute_goal(draft, front, goal, &lines)
}

// From steps that refute the parts, one that refutes the formulas and a negated `if`.
#[cycle(glue)]
fn glue_if(
    draft: &mut Draft,
    front: &[TermId],
    goal: TermId,
    cond: TermId,
    pair: FormulaPair,
    params: &[TermId],
    ends: &[usize],
) -> Result<usize, AllocError>
    requires can { CanGlue draft.old front.now goal (length params.now) ends.now }
    requires tree { tree_at draft.old.trees goal ≡ Three HIf (tree_at draft.old.trees cond)
        (tree_at draft.old.trees pair.left) (tree_at draft.old.trees pair.right) }
    requires cond { IsFormulaAt draft.old cond }
    requires pair { IsFormulaPair draft.old pair.left pair.right }
    ensures { IsGlued draft.old draft.new front.now goal result }
{
    let no_cond = negation(draft, cond)?;
    let there = connect(draft, Op::Imp, cond, pair.left)?;
    let away = connect(draft, Op::Imp, no_cond, pair.right)?;
    let (left, right) = glue_two(draft, front, there, away, params, ends)?;
    let lines = [
        Line::Cut(there),
        Line::Cut(away),
        Line::Rule(Word::IfDef(goal)),
        Line::Holding(Op::And, 3),
        Line::Cut(cond),
        Line::Holding(Op::Imp, 4),
        Line::Rule(Word::Clash(6, 7)),
        Line::Holding(Op::Imp, 1),
        Line::Rule(Word::Clash(6, 8)),
        Line::Holding(Op::Iff, 7),
        Line::Rule(Word::Clash(9, 0)),
        Line::Rule(Word::Clash(8, 10)),
        Line::Holding(Op::Imp, 5),
        Line::Rule(Word::Clash(6, 7)),
        Line::Holding(Op::Imp, 2),
        Line::Rule(Word::Clash(6, 8)),
        Line::Holding(Op::Iff, 7),
        Line::Rule(Word::Clash(9, 0)),
        Line::Rule(Word::Clash(8, 10)),
        Line::Given(right, 1),
        Line::Given(left, 1),
    ];
    refute_goal(draft, front, goal, &lines)
}
