// What the premises of the rules on connectives add, made where it isn't there.
ghost use Rattle.std.specs.Prelude.{◌≡◌, IfOk};
ghost use Rattle.trees.specs.Tree.{Tree};
ghost use Rattle.trees.specs.Node.{tree_at};
ghost use Rattle.rules.specs.Rows.{where_true, where_false};
ghost use Rattle.evidence.specs.Drafts.{DraftTree, AddsTrees, IsFormulaAt};
ghost use Rattle.evidence.specs.proof_scripts.Sided.{AreBoth, AreSides};

use crate::proof_scripts::line::{Formulas, Sides};
use crate::{Draft, negation};
use std::alloc::AllocError;
use trees::{Op, TermId};

// Two formulas with their negations.
#[derive(Clone, Copy)]
pub(crate) struct Both {
    left: TermId,
    right: TermId,
    no_left: TermId,
    no_right: TermId,
}

// The negations beside two formulas.
pub(crate) fn negate_both(
    draft: &mut Draft,
    left: TermId,
    right: TermId,
) -> Result<Both, AllocError>
    requires left { IsFormulaAt draft.old left }
    requires right { IsFormulaAt draft.old right }
    ensures both { IfOk result (AreBoth draft.new (tree_at draft.old.trees left)
        (tree_at draft.old.trees right)) }
    ensures grows { AddsTrees draft.old draft.new }
{
    let no_left = negation(draft, left)?;
    let no_right = negation(draft, right)?;
    Ok(Both {
        left,
        right,
        no_left,
        no_right,
    })
}

fn one_formula(a: TermId) -> Option<Formulas>
    ensures { result ≡ Some (Formulas.One a) }
{
    Some(Formulas::One(a))
}

fn two_formulas(a: TermId, b: TermId) -> Option<Formulas>
    ensures { result ≡ Some (Formulas.Two a b) }
{
    Some(Formulas::Two(a, b))
}

// What a connective of the two gives where it holds.
pub(crate) fn where_true(op: Op, b: Both) -> Sides
    ensures { (d : DraftTree) (x y : Tree) → AreBoth d x y b
        → AreSides d result (where_true op x y) }
{
    match op {
        Op::And | Op::AndThen => Sides {
            first: two_formulas(b.left, b.right),
            second: None,
        },
        Op::Or | Op::OrElse => Sides {
            first: one_formula(b.left),
            second: one_formula(b.right),
        },
        Op::Imp => Sides {
            first: one_formula(b.no_left),
            second: one_formula(b.right),
        },
        Op::Iff => Sides {
            first: two_formulas(b.left, b.right),
            second: two_formulas(b.no_left, b.no_right),
        },
    }
}

// What it gives where its negation holds.
pub(crate) fn where_false(op: Op, b: Both) -> Sides
    ensures { (d : DraftTree) (x y : Tree) → AreBoth d x y b
        → AreSides d result (where_false op x y) }
{
    match op {
        Op::And | Op::AndThen => Sides {
            first: one_formula(b.no_left),
            second: one_formula(b.no_right),
        },
        Op::Or | Op::OrElse => Sides {
            first: two_formulas(b.no_left, b.no_right),
            second: None,
        },
        Op::Imp => Sides {
            first: two_formulas(b.left, b.no_right),
            second: None,
        },
        Op::Iff => Sides {
            first: two_formulas(b.left, b.no_right),
            second: two_formulas(b.no_left, b.right),
        },
    }
}
