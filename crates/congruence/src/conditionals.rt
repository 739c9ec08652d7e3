// Conditionals: what the whole is alike under its condition, and under the condition's negation, by its equation
// `(c -> E ~ a) /\ (not c -> E ~ b)`.
ghost use Rattle.std.specs.Prelude.{[], ◌∷◌, IfOk};
ghost use Rattle.trees.specs.Node.{tree_at};
ghost use Rattle.tasks.specs.Task.{neg};
ghost use Rattle.rules.specs.Forms.{alike};
ghost use Rattle.evidence.specs.Drafts.{Extends, Refutes};
ghost use Rattle.congruence.specs.Conditionals.{IsConditional, IsIfAt, IsMatchAt, HasValues};

use crate::claims::denial;
use evidence::proof_scripts::{Line, Word, derive};
use evidence::{Draft, negation};
use std::alloc::AllocError;
use trees::{Op, TermId};

/// The numbers of a conditional: the whole, its condition, and what the whole is alike where the condition holds and where it
/// doesn't.
#[derive(Clone, Copy)]
pub struct Conditional {
    pub whole: TermId,
    pub condition: TermId,
    pub then_part: TermId,
    pub else_part: TermId,
}

/// Steps for a conditional: one refutes the condition and the negation of `whole ~ then_part`, the other the condition's negation
/// and that of `whole ~ else_part`.
#[derive(Clone, Copy)]
pub struct CaseValues {
    pub then_value: usize,
    pub else_value: usize,
}

// [c; not (E ~ a)], where E is `if c then a else b`.
fn if_then(draft: &mut Draft, k: Conditional) -> Result<usize, AllocError>
    requires parts { IsConditional draft.old k }
    requires is { IsIfAt draft.old k }
    ensures refutes { IfOk result (λ n. Refutes draft.new n (tree_at draft.old.trees k.condition
        ∷ neg (alike (tree_at draft.old.trees k.whole) (tree_at draft.old.trees k.then_part))
        ∷ [])) }
    ensures grows { Extends draft.old draft.new }
{
    let goal = denial(draft, k.whole, k.then_part)?;
    derive(
        draft,
        &[],
        &[k.condition, goal],
        &[
            Line::Rule(Word::IfDef(k.whole)),
            Line::Holding(Op::And, 2),
            Line::Holding(Op::Imp, 3),
            Line::Rule(Word::Clash(0, 5)),
            Line::Rule(Word::Clash(5, 1)),
        ],
    )
}

// [not c; not (E ~ b)], where E is `if c then a else b`.
fn if_else(draft: &mut Draft, k: Conditional) -> Result<usize, AllocError>
    requires parts { IsConditional draft.old k }
    requires is { IsIfAt draft.old k }
    ensures refutes { IfOk result (λ n. Refutes draft.new n
        (neg (tree_at draft.old.trees k.condition)
        ∷ neg (alike (tree_at draft.old.trees k.whole) (tree_at draft.old.trees k.else_part))
        ∷ [])) }
    ensures grows { Extends draft.old draft.new }
{
    let goal = denial(draft, k.whole, k.else_part)?;
    let negated = negation(draft, k.condition)?;
    derive(
        draft,
        &[],
        &[negated, goal],
        &[
            Line::Rule(Word::IfDef(k.whole)),
            Line::Holding(Op::And, 2),
            Line::Holding(Op::Imp, 4),
            Line::Rule(Word::Clash(0, 5)),
            Line::Rule(Word::Clash(5, 1)),
        ],
    )
}

// [c; not (E ~ a)], where E is a `match` with more branches than one.
fn match_then(draft: &mut Draft, k: Conditional) -> Result<usize, AllocError>
    requires parts { IsConditional draft.old k }
    requires is { IsMatchAt draft.old k }
    ensures refutes { IfOk result (λ n. Refutes draft.new n (tree_at draft.old.trees k.condition
        ∷ neg (alike (tree_at draft.old.trees k.whole) (tree_at draft.old.trees k.then_part))
        ∷ [])) }
    ensures grows { Extends draft.old draft.new }
{
    let goal = denial(draft, k.whole, k.then_part)?;
    derive(
        draft,
        &[],
        &[k.condition, goal],
        &[
            Line::Branches(k.whole, k.condition, k.then_part, k.else_part),
            Line::Holding(Op::And, 2),
            Line::Holding(Op::Imp, 3),
            Line::Rule(Word::Clash(0, 5)),
            Line::Rule(Word::Clash(5, 1)),
        ],
    )
}

// [not c; not (E ~ b)], where E is such a `match`.
fn match_else(draft: &mut Draft, k: Conditional) -> Result<usize, AllocError>
    requires parts { IsConditional draft.old k }
    requires is { IsMatchAt draft.old k }
    ensures refutes { IfOk result (λ n. Refutes draft.new n
        (neg (tree_at draft.old.trees k.condition)
        ∷ neg (alike (tree_at draft.old.trees k.whole) (tree_at draft.old.trees k.else_part))
        ∷ [])) }
    ensures grows { Extends draft.old draft.new }
{
    let goal = denial(draft, k.whole, k.else_part)?;
    let negated = negation(draft, k.condition)?;
    derive(
        draft,
        &[],
        &[negated, goal],
        &[
            Line::Branches(k.whole, k.condition, k.then_part, k.else_part),
            Line::Holding(Op::And, 2),
            Line::Holding(Op::Imp, 4),
            Line::Rule(Word::Clash(0, 5)),
            Line::Rule(Word::Clash(5, 1)),
        ],
    )
}

/// The values of an `if`.
pub fn if_values(draft: &mut Draft, k: Conditional) -> Result<CaseValues, AllocError>
    requires parts { IsConditional draft.old k }
    requires is { IsIfAt draft.old k }
    ensures values { IfOk result (HasValues draft.new k) }
    ensures grows { Extends draft.old draft.new }
{
    let then_value = if_then(draft, k)?;
    let else_value = if_else(draft, k)?;
    Ok(CaseValues {
        then_value,
        else_value,
    })
}

/// The values of a `match` with more branches than one: the condition is the test of its first pattern.
pub fn match_values(draft: &mut Draft, k: Conditional) -> Result<CaseValues, AllocError>
    requires parts { IsConditional draft.old k }
    requires is { IsMatchAt draft.old k }
    ensures values { IfOk result (HasValues draft.new k) }
    ensures grows { Extends draft.old draft.new }
{
    let then_value = match_then(draft, k)?;
    let else_value = match_else(draft, k)?;
    Ok(CaseValues {
        then_value,
        else_value,
    })
}
