// An atom by cases on its first conditional.
ghost use Rattle.std.specs.Prelude.{IfOk};
ghost use Rattle.tasks.specs.trees.Node.{tree_at};
ghost use Rattle.evidence.specs.Drafts.{AddsTrees, Extends};
ghost use Rattle.congruence.specs.Conditionals.{HasValues};
ghost use Rattle.tr_if.specs.Firsts.{IsAtomAt, IsFirstOf, IsFirstCase};
ghost use Rattle.tr_if.specs.Atoms.{atom_cases};

use crate::conditionals::if_parts;
use crate::places::{OpenAtom, open_place, parts_at, place_at, put_part};
use crate::values::{PlacedTerm, value_in_place};
use congruence::{CaseValues, Conditional, if_values};
use evidence::{Draft, negation};
use std::alloc::AllocError;
use tasks::{Grow, TermId};

/// An atom by cases on its first conditional: the open condition, the conditional's instance, a formula with a hole in its
/// place, and the atom with either part there.
#[derive(Clone, Copy)]
pub(crate) struct FirstCase {
    pub condition: TermId,
    pub at: Conditional,
    pub hole: TermId,
    pub first: OpenAtom,
    pub second: OpenAtom,
}

/// The atom by cases on its first conditional.
pub(crate) fn first_case(
    draft: &mut Draft,
    env: &[TermId],
    atom: OpenAtom,
    whole: TermId,
    fresh: usize,
) -> Result<FirstCase, AllocError>
    requires atom { IsAtomAt draft.old env.now atom fresh }
    requires first { IsFirstOf draft.old (tree_at draft.old.trees atom.formula) whole }
    ensures case { IfOk result (IsFirstCase draft.new env.now atom fresh) }
    ensures grows { AddsTrees draft.old draft.new }
{
    let parts = if_parts(draft.store(), whole);
    let place = place_at(draft, env, whole, fresh)?;
    let hole = open_place(draft, env, atom, whole, fresh)?;
    let first = put_part(draft, env, atom, whole, parts.then_part, fresh)?;
    let second = put_part(draft, env, atom, whole, parts.else_part, fresh)?;
    let at = parts_at(draft, env, whole, place, fresh);
    Ok(FirstCase {
        condition: parts.condition,
        at,
        hole,
        first,
        second,
    })
}

/// Steps that show what an atom is equivalent to, under its first conditional's condition and under the negation of that.
pub(crate) fn first_values(
    draft: &mut Draft,
    env: &[TermId],
    atom: OpenAtom,
    case: FirstCase,
    fresh: usize,
) -> Result<CaseValues, AllocError>
    requires { IsFirstCase draft.old env.now atom fresh case }
    ensures values { IfOk result (HasValues draft.new (atom_cases atom case)) }
    ensures grows { Extends draft.old draft.new }
{
    let _ = env;
    let _ = fresh;
    let values = if_values(draft, case.at)?;
    let negated = negation(draft, case.at.condition)?;
    let first = PlacedTerm {
        hole: case.hole,
        left: atom.left,
        right: case.first.left,
        old: case.at.whole,
        new: case.at.then_part,
    };
    let then_value = value_in_place(draft, case.at.condition, first, values.then_value)?;
    let second = PlacedTerm {
        right: case.second.left,
        new: case.at.else_part,
        ..first
    };
    let else_value = value_in_place(draft, negated, second, values.else_value)?;
    Ok(CaseValues {
        then_value,
        else_value,
    })
}
