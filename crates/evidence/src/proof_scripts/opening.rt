// The rule that a line means, with what its premises add.
ghost use Rattle.std.specs.Prelude.{IfOk};
ghost use Rattle.trees.specs.Node.{tree_at};
ghost use Rattle.tasks.specs.Meaning.{trees_at};
ghost use Rattle.rules.specs.Trees.{RMatchDef};
ghost use Rattle.rules.specs.Forms.{alike, by_cases};
ghost use Rattle.evidence.specs.Drafts.{AddsTrees, AreFormulas, IsFormulaAt};
ghost use Rattle.evidence.specs.proof_scripts.Added.{AreComparable};
ghost use Rattle.evidence.specs.proof_scripts.Scripts.{script_line_at, word_rule, WordHeld, LineHeld, HoldingLine, FailingLine, MadeLine};
ghost use Rattle.evidence.specs.proof_scripts.Words.{HasNoPlace};
ghost use Rattle.evidence.specs.proof_scripts.Derived.{CanOpen, HasRule, IsLineOpened};

use crate::proof_scripts::line::{Formulas, Line, Opened, Sides, Word};
use crate::proof_scripts::making::{make_alike, make_cases, make_sides};
use crate::proof_scripts::sides::{negate_both, where_false, where_true};
use crate::{Draft, negation};
use std::alloc::AllocError;
use trees::store::Grow;
use trees::{Node, Op, TermId};

// The rule of a line that has one, with what its premises add.
pub(crate) fn open_line(
    draft: &mut Draft,
    front: &[TermId],
    tail: &[TermId],
    line: Line,
) -> Result<Opened, AllocError>
    requires tail { AreFormulas draft.old tail.now }
    requires line { LineHeld draft.old line }
    requires rule { HasRule (script_line_at draft.old.trees line) }
    requires opens { CanOpen draft.old (trees_at draft.old.trees front.now)
        (trees_at draft.old.trees tail.now) (script_line_at draft.old.trees line) }
    ensures opened { IfOk result (λ r. IsLineOpened draft.new (trees_at draft.old.trees front.now)
        (trees_at draft.old.trees tail.now) (script_line_at draft.old.trees line) r) }
    ensures grows { AddsTrees draft.old draft.new }
{
    match line {
        Line::Given(_, _) => unreachable!(),
        Line::Kept(_, _) => unreachable!(),
        Line::Holding(op, place) => open_holding(draft, front, tail, op, place),
        Line::Failing(op, place) => open_failing(draft, front, tail, op, place),
        Line::Cut(formula) => {
            let negated = negation(draft, formula)?;
            let first = Some(Formulas::One(formula));
            let second = Some(Formulas::One(negated));
            Ok(Opened {
                before: 0,
                word: Word::Cut(formula),
                sides: Sides { first, second },
            })
        }
        Line::Rule(word) => {
            let sides = make_sides(draft, tail, word)?;
            Ok(Opened {
                before: front.len(),
                word,
                sides,
            })
        }
        Line::Branch(whole, part) => {
            open_alike(draft, front, tail, Word::MatchDef(whole), whole, part)
        }
        Line::Branches(whole, test, part, rest) => {
            open_branches(draft, front, tail, whole, test, part, rest)
        }
        Line::Field(whole, part) => {
            open_alike(draft, front, tail, Word::Project(whole), whole, part)
        }
    }
}

// A rule without places, by which an expression is alike a part.
fn open_alike(
    draft: &mut Draft,
    front: &[TermId],
    tail: &[TermId],
    word: Word,
    whole: TermId,
    part: TermId,
) -> Result<Opened, AllocError>
    requires word { WordHeld draft.old.trees word }
    requires no_place { HasNoPlace word }
    requires alike { AreComparable draft.old whole part }
    requires opens { CanOpen draft.old (trees_at draft.old.trees front.now)
        (trees_at draft.old.trees tail.now) (MadeLine (word_rule draft.old.trees word)
        (alike (tree_at draft.old.trees whole) (tree_at draft.old.trees part))) }
    ensures opened { IfOk result (λ r. IsLineOpened draft.new (trees_at draft.old.trees front.now)
        (trees_at draft.old.trees tail.now) (MadeLine (word_rule draft.old.trees word)
        (alike (tree_at draft.old.trees whole) (tree_at draft.old.trees part))) r) }
    ensures grows { AddsTrees draft.old draft.new }
{
    let _ = front;
    let _ = tail;
    let made = make_alike(draft, whole, part)?;
    let first = Some(Formulas::One(made));
    Ok(Opened {
        before: 0,
        word,
        sides: Sides {
            first,
            second: None,
        },
    })
}

// The equation of a `match` with more branches than one.
fn open_branches(
    draft: &mut Draft,
    front: &[TermId],
    tail: &[TermId],
    whole: TermId,
    test: TermId,
    part: TermId,
    rest: TermId,
) -> Result<Opened, AllocError>
    requires test { IsFormulaAt draft.old test }
    requires part { AreComparable draft.old whole part }
    requires rest { AreComparable draft.old whole rest }
    requires opens { CanOpen draft.old (trees_at draft.old.trees front.now)
        (trees_at draft.old.trees tail.now) (MadeLine (RMatchDef (tree_at draft.old.trees whole))
        (by_cases (tree_at draft.old.trees test) (tree_at draft.old.trees whole)
        (tree_at draft.old.trees part) (tree_at draft.old.trees rest))) }
    ensures opened { IfOk result (λ r. IsLineOpened draft.new (trees_at draft.old.trees front.now)
        (trees_at draft.old.trees tail.now) (MadeLine (RMatchDef (tree_at draft.old.trees whole))
        (by_cases (tree_at draft.old.trees test) (tree_at draft.old.trees whole)
        (tree_at draft.old.trees part) (tree_at draft.old.trees rest))) r) }
    ensures grows { AddsTrees draft.old draft.new }
{
    let _ = front;
    let _ = tail;
    let made = make_cases(draft, test, whole, part, rest)?;
    let first = Some(Formulas::One(made));
    Ok(Opened {
        before: 0,
        word: Word::MatchDef(whole),
        sides: Sides {
            first,
            second: None,
        },
    })
}

// The rule on a connective of the tail, at a place.
fn open_holding(
    draft: &mut Draft,
    front: &[TermId],
    tail: &[TermId],
    op: Op,
    place: usize,
) -> Result<Opened, AllocError>
    requires tail { AreFormulas draft.old tail.now }
    requires opens { CanOpen draft.old (trees_at draft.old.trees front.now)
        (trees_at draft.old.trees tail.now) (HoldingLine op place) }
    ensures opened { IfOk result (λ r. IsLineOpened draft.new (trees_at draft.old.trees front.now)
        (trees_at draft.old.trees tail.now) (HoldingLine op place) r) }
    ensures grows { AddsTrees draft.old draft.new }
{
    match draft.store().node(tail[place]) {
        Node::Join(_, a, b) => {
            let both = negate_both(draft, a, b)?;
            Ok(Opened {
                before: front.len(),
                word: Word::Holding(op, place),
                sides: where_true(op, both),
            })
        }
        _ => unreachable!(),
    }
}

// The rule on the negation of a connective of the tail, at a place.
fn open_failing(
    draft: &mut Draft,
    front: &[TermId],
    tail: &[TermId],
    op: Op,
    place: usize,
) -> Result<Opened, AllocError>
    requires tail { AreFormulas draft.old tail.now }
    requires opens { CanOpen draft.old (trees_at draft.old.trees front.now)
        (trees_at draft.old.trees tail.now) (FailingLine op place) }
    ensures opened { IfOk result (λ r. IsLineOpened draft.new (trees_at draft.old.trees front.now)
        (trees_at draft.old.trees tail.now) (FailingLine op place) r) }
    ensures grows { AddsTrees draft.old draft.new }
{
    match draft.store().node(tail[place]) {
        Node::Not(whole) => match draft.store().node(whole) {
            Node::Join(_, a, b) => {
                let both = negate_both(draft, a, b)?;
                Ok(Opened {
                    before: front.len(),
                    word: Word::Failing(op, place),
                    sides: where_false(op, both),
                })
            }
            _ => unreachable!(),
        },
        _ => unreachable!(),
    }
}
