// Two implications under a condition and its negation: `(c -> a) /\ (not c -> b)` is equivalent to `a` where `c` holds, and to `b`
// where it doesn't.
ghost use Rattle.std.specs.Prelude.{[], ◌∷◌, IfOk};
ghost use Rattle.congruence.specs.kernel.rules.Forms.{alike};
ghost use Rattle.tasks.specs.trees.Node.{tree_at};
ghost use Rattle.tasks.specs.Task.{neg};
ghost use Rattle.evidence.specs.Drafts.{Extends, Refutes};
ghost use Rattle.congruence.specs.Conditionals.{HasValues};
ghost use Rattle.tr_if.specs.Implying.{AreImplications};

use crate::values::denial_of;
use congruence::{CaseValues, Conditional};
use evidence::proof_scripts::{Line, Word, derive};
use evidence::{Draft, negation};
use std::alloc::AllocError;
use tasks::Op;

// [c; not (m <-> a)].
fn implied_then(draft: &mut Draft, k: Conditional) -> Result<usize, AllocError>
    requires { AreImplications draft.old k }
    ensures refutes { IfOk result (λ n. Refutes draft.new n (tree_at draft.old.trees k.condition
        ∷ neg (alike (tree_at draft.old.trees k.whole) (tree_at draft.old.trees k.then_part))
        ∷ [])) }
    ensures grows { Extends draft.old draft.new }
{
    let goal = denial_of(draft, k.whole, k.then_part)?;
    derive(
        draft,
        &[],
        &[k.condition, goal],
        &[
            Line::Failing(Op::Iff, 1),
            Line::Holding(Op::And, 2),
            Line::Holding(Op::Imp, 4),
            Line::Rule(Word::Clash(0, 6)),
            Line::Rule(Word::Clash(6, 3)),
            Line::Failing(Op::And, 2),
            Line::Failing(Op::Imp, 4),
            Line::Rule(Word::Clash(3, 6)),
            Line::Failing(Op::Imp, 4),
            Line::Rule(Word::Clash(0, 5)),
        ],
    )
}

// [not c; not (m <-> b)].
fn implied_else(draft: &mut Draft, k: Conditional) -> Result<usize, AllocError>
    requires { AreImplications draft.old k }
    ensures refutes { IfOk result (λ n. Refutes draft.new n
        (neg (tree_at draft.old.trees k.condition)
        ∷ neg (alike (tree_at draft.old.trees k.whole) (tree_at draft.old.trees k.else_part))
        ∷ [])) }
    ensures grows { Extends draft.old draft.new }
{
    let goal = denial_of(draft, k.whole, k.else_part)?;
    let negated = negation(draft, k.condition)?;
    derive(
        draft,
        &[],
        &[negated, goal],
        &[
            Line::Failing(Op::Iff, 1),
            Line::Holding(Op::And, 2),
            Line::Holding(Op::Imp, 5),
            Line::Rule(Word::Clash(0, 6)),
            Line::Rule(Word::Clash(6, 3)),
            Line::Failing(Op::And, 2),
            Line::Failing(Op::Imp, 4),
            Line::Rule(Word::Clash(5, 0)),
            Line::Failing(Op::Imp, 4),
            Line::Rule(Word::Clash(3, 6)),
        ],
    )
}

/// Steps that show what `(c -> a) /\ (not c -> b)` is equivalent to under its condition, and under the negation of that.
pub(crate) fn implied_values(draft: &mut Draft, k: Conditional) -> Result<CaseValues, AllocError>
    requires { AreImplications draft.old k }
    ensures values { IfOk result (HasValues draft.new k) }
    ensures grows { Extends draft.old draft.new }
{
    let then_value = implied_then(draft, k)?;
    let else_value = implied_else(draft, k)?;
    Ok(CaseValues {
        then_value,
        else_value,
    })
}
