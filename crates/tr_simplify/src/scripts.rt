// Scripts for the laws of connectives and of negations.
ghost use Rattle.std.specs.Prelude.{◌≡◌, IfOk};
ghost use Rattle.tr_simplify.specs.declared.laws.TruthValue.TheVariants as side;
ghost use Rattle.tr_simplify.specs.Scripts.{conjunction_lines, disjunction_lines, implication_lines, equivalence_lines, law_lines, not_lines};

use crate::laws::TruthValue;
use evidence::proof_scripts::{Line, Word};
use std::alloc::{AllocError, Global};
use trees::Op;

// The lines for a conjunction whose first side is `false`.
fn conjunction_after_false(
    alloc: Global,
    op: Op,
    second: TruthValue,
) -> Result<Vec<Line>, AllocError>
    ensures { IfOk result (λ v. v.items ≡ conjunction_lines op side.False second) }
{
    match second {
        TruthValue::True => Vec::from_slice(
            alloc,
            &[
                Line::Failing(Op::Iff, 0),
                Line::Holding(op, 1),
                Line::Rule(Word::Clash(3, 2)),
                Line::Failing(op, 1),
                Line::Rule(Word::Clash(2, 3)),
                Line::Rule(Word::NotTrue(3)),
            ],
        ),
        TruthValue::False | TruthValue::Other => Vec::from_slice(
            alloc,
            &[
                Line::Failing(Op::Iff, 0),
                Line::Holding(op, 1),
                Line::Rule(Word::False(3)),
                Line::Rule(Word::False(2)),
            ],
        ),
    }
}

// The lines for a conjunction whose first side is no constant.
fn conjunction_after_other(
    alloc: Global,
    op: Op,
    second: TruthValue,
) -> Result<Vec<Line>, AllocError>
    ensures { IfOk result (λ v. v.items ≡ conjunction_lines op side.Other second) }
{
    match second {
        TruthValue::True => Vec::from_slice(
            alloc,
            &[
                Line::Failing(Op::Iff, 0),
                Line::Holding(op, 1),
                Line::Rule(Word::Clash(3, 2)),
                Line::Failing(op, 1),
                Line::Rule(Word::Clash(2, 3)),
                Line::Rule(Word::NotTrue(3)),
            ],
        ),
        TruthValue::False => Vec::from_slice(
            alloc,
            &[
                Line::Failing(Op::Iff, 0),
                Line::Holding(op, 1),
                Line::Rule(Word::False(4)),
                Line::Rule(Word::False(2)),
            ],
        ),
        TruthValue::Other => Ok(Vec::new(alloc)),
    }
}

// The lines for a conjunction.
fn conjunction_lines(
    alloc: Global,
    op: Op,
    first: TruthValue,
    second: TruthValue,
) -> Result<Vec<Line>, AllocError>
    ensures { IfOk result (λ v. v.items ≡ conjunction_lines op first second) }
{
    match first {
        TruthValue::True => Vec::from_slice(
            alloc,
            &[
                Line::Failing(Op::Iff, 0),
                Line::Holding(op, 1),
                Line::Rule(Word::Clash(4, 2)),
                Line::Failing(op, 1),
                Line::Rule(Word::NotTrue(3)),
                Line::Rule(Word::Clash(2, 3)),
            ],
        ),
        TruthValue::False => conjunction_after_false(alloc, op, second),
        TruthValue::Other => conjunction_after_other(alloc, op, second),
    }
}

// The lines for a disjunction whose first side is `true`.
fn disjunction_after_true(
    alloc: Global,
    op: Op,
    second: TruthValue,
) -> Result<Vec<Line>, AllocError>
    ensures { IfOk result (λ v. v.items ≡ disjunction_lines op side.True second) }
{
    match second {
        TruthValue::True | TruthValue::Other => Vec::from_slice(
            alloc,
            &[
                Line::Failing(Op::Iff, 0),
                Line::Rule(Word::NotTrue(2)),
                Line::Failing(op, 1),
                Line::Rule(Word::NotTrue(3)),
            ],
        ),
        TruthValue::False => Vec::from_slice(
            alloc,
            &[
                Line::Failing(Op::Iff, 0),
                Line::Holding(op, 1),
                Line::Rule(Word::Clash(3, 2)),
                Line::Rule(Word::False(3)),
                Line::Failing(op, 1),
                Line::Rule(Word::Clash(2, 3)),
            ],
        ),
    }
}

// The lines for a disjunction whose first side is no constant.
fn disjunction_after_other(
    alloc: Global,
    op: Op,
    second: TruthValue,
) -> Result<Vec<Line>, AllocError>
    ensures { IfOk result (λ v. v.items ≡ disjunction_lines op side.Other second) }
{
    match second {
        TruthValue::True => Vec::from_slice(
            alloc,
            &[
                Line::Failing(Op::Iff, 0),
                Line::Rule(Word::NotTrue(2)),
                Line::Failing(op, 1),
                Line::Rule(Word::NotTrue(4)),
            ],
        ),
        TruthValue::False => Vec::from_slice(
            alloc,
            &[
                Line::Failing(Op::Iff, 0),
                Line::Holding(op, 1),
                Line::Rule(Word::Clash(3, 2)),
                Line::Rule(Word::False(3)),
                Line::Failing(op, 1),
                Line::Rule(Word::Clash(2, 3)),
            ],
        ),
        TruthValue::Other => Ok(Vec::new(alloc)),
    }
}

// The lines for a disjunction.
fn disjunction_lines(
    alloc: Global,
    op: Op,
    first: TruthValue,
    second: TruthValue,
) -> Result<Vec<Line>, AllocError>
    ensures { IfOk result (λ v. v.items ≡ disjunction_lines op first second) }
{
    match first {
        TruthValue::True => disjunction_after_true(alloc, op, second),
        TruthValue::False => Vec::from_slice(
            alloc,
            &[
                Line::Failing(Op::Iff, 0),
                Line::Holding(op, 1),
                Line::Rule(Word::False(3)),
                Line::Rule(Word::Clash(3, 2)),
                Line::Failing(op, 1),
                Line::Rule(Word::Clash(2, 4)),
            ],
        ),
        TruthValue::Other => disjunction_after_other(alloc, op, second),
    }
}

// The lines for an implication whose first side is no constant.
fn implication_after_other(alloc: Global, second: TruthValue) -> Result<Vec<Line>, AllocError>
    ensures { IfOk result (λ v. v.items ≡ implication_lines side.Other second) }
{
    match second {
        TruthValue::True => Vec::from_slice(
            alloc,
            &[
                Line::Failing(Op::Iff, 0),
                Line::Rule(Word::NotTrue(2)),
                Line::Failing(Op::Imp, 1),
                Line::Rule(Word::NotTrue(4)),
            ],
        ),
        TruthValue::False => Vec::from_slice(
            alloc,
            &[
                Line::Failing(Op::Iff, 0),
                Line::Holding(Op::Imp, 1),
                Line::Rule(Word::Clash(3, 2)),
                Line::Rule(Word::False(3)),
                Line::Failing(Op::Imp, 1),
                Line::Rule(Word::Clash(3, 2)),
            ],
        ),
        TruthValue::Other => Ok(Vec::new(alloc)),
    }
}

// The lines for an implication.
fn implication_lines(
    alloc: Global,
    first: TruthValue,
    second: TruthValue,
) -> Result<Vec<Line>, AllocError>
    ensures { IfOk result (λ v. v.items ≡ implication_lines first second) }
{
    match first {
        TruthValue::True => Vec::from_slice(
            alloc,
            &[
                Line::Failing(Op::Iff, 0),
                Line::Holding(Op::Imp, 1),
                Line::Rule(Word::NotTrue(3)),
                Line::Rule(Word::Clash(3, 2)),
                Line::Failing(Op::Imp, 1),
                Line::Rule(Word::Clash(2, 4)),
            ],
        ),
        TruthValue::False => Vec::from_slice(
            alloc,
            &[
                Line::Failing(Op::Iff, 0),
                Line::Rule(Word::NotTrue(2)),
                Line::Failing(Op::Imp, 1),
                Line::Rule(Word::False(3)),
            ],
        ),
        TruthValue::Other => implication_after_other(alloc, second),
    }
}

// The lines for an equivalence whose second side is `false`.
fn equivalence_before_false(alloc: Global, first: TruthValue) -> Result<Vec<Line>, AllocError>
    ensures { IfOk result (λ v. v.items ≡ equivalence_lines first side.False) }
{
    match first {
        TruthValue::True => Vec::from_slice(
            alloc,
            &[
                Line::Failing(Op::Iff, 0),
                Line::Holding(Op::Iff, 1),
                Line::Rule(Word::Clash(4, 2)),
                Line::Rule(Word::NotTrue(3)),
                Line::Failing(Op::Iff, 1),
                Line::Rule(Word::Clash(2, 4)),
                Line::Rule(Word::NotTrue(3)),
            ],
        ),
        TruthValue::False => Vec::from_slice(
            alloc,
            &[
                Line::Failing(Op::Iff, 0),
                Line::Rule(Word::NotTrue(2)),
                Line::Failing(Op::Iff, 1),
                Line::Rule(Word::False(3)),
                Line::Rule(Word::False(4)),
            ],
        ),
        TruthValue::Other => Vec::from_slice(
            alloc,
            &[
                Line::Failing(Op::Iff, 0),
                Line::Holding(Op::Iff, 1),
                Line::Rule(Word::False(4)),
                Line::Rule(Word::Clash(3, 2)),
                Line::Failing(Op::Iff, 1),
                Line::Rule(Word::Clash(3, 2)),
                Line::Rule(Word::False(4)),
            ],
        ),
    }
}

// The lines for an equivalence whose second side is no constant.
fn equivalence_before_other(alloc: Global, first: TruthValue) -> Result<Vec<Line>, AllocError>
    ensures { IfOk result (λ v. v.items ≡ equivalence_lines first side.Other) }
{
    match first {
        TruthValue::True => Vec::from_slice(
            alloc,
            &[
                Line::Failing(Op::Iff, 0),
                Line::Holding(Op::Iff, 1),
                Line::Rule(Word::Clash(4, 2)),
                Line::Rule(Word::NotTrue(3)),
                Line::Failing(Op::Iff, 1),
                Line::Rule(Word::Clash(2, 4)),
                Line::Rule(Word::NotTrue(3)),
            ],
        ),
        TruthValue::False => Vec::from_slice(
            alloc,
            &[
                Line::Failing(Op::Iff, 0),
                Line::Holding(Op::Iff, 1),
                Line::Rule(Word::False(3)),
                Line::Rule(Word::Clash(4, 2)),
                Line::Failing(Op::Iff, 1),
                Line::Rule(Word::False(3)),
                Line::Rule(Word::Clash(4, 2)),
            ],
        ),
        TruthValue::Other => Ok(Vec::new(alloc)),
    }
}

// The lines for an equivalence.
fn equivalence_lines(
    alloc: Global,
    first: TruthValue,
    second: TruthValue,
) -> Result<Vec<Line>, AllocError>
    ensures { IfOk result (λ v. v.items ≡ equivalence_lines first second) }
{
    match second {
        TruthValue::True => Vec::from_slice(
            alloc,
            &[
                Line::Failing(Op::Iff, 0),
                Line::Holding(Op::Iff, 1),
                Line::Rule(Word::Clash(3, 2)),
                Line::Rule(Word::NotTrue(4)),
                Line::Failing(Op::Iff, 1),
                Line::Rule(Word::NotTrue(4)),
                Line::Rule(Word::Clash(2, 3)),
            ],
        ),
        TruthValue::False => equivalence_before_false(alloc, first),
        TruthValue::Other => equivalence_before_other(alloc, first),
    }
}

/// The lines for a connective, by which constants its sides are.
pub(crate) fn law_lines(
    alloc: Global,
    op: Op,
    first: TruthValue,
    second: TruthValue,
) -> Result<Vec<Line>, AllocError>
    ensures { IfOk result (λ v. v.items ≡ law_lines op first second) }
{
    match op {
        Op::And | Op::AndThen => conjunction_lines(alloc, op, first, second),
        Op::Or | Op::OrElse => disjunction_lines(alloc, op, first, second),
        Op::Imp => implication_lines(alloc, first, second),
        Op::Iff => equivalence_lines(alloc, first, second),
    }
}

/// The lines for a negation, by which constant it negates.
pub(crate) fn not_lines(alloc: Global, known: TruthValue) -> Result<Vec<Line>, AllocError>
    ensures { IfOk result (λ v. v.items ≡ not_lines known) }
{
    match known {
        TruthValue::True => Vec::from_slice(
            alloc,
            &[
                Line::Failing(Op::Iff, 0),
                Line::Rule(Word::NotTrue(1)),
                Line::Rule(Word::False(2)),
            ],
        ),
        TruthValue::False => Vec::from_slice(
            alloc,
            &[
                Line::Failing(Op::Iff, 0),
                Line::Rule(Word::NotTrue(2)),
                Line::Rule(Word::NotNot(1)),
                Line::Rule(Word::False(3)),
            ],
        ),
        TruthValue::Other => Ok(Vec::new(alloc)),
    }
}
