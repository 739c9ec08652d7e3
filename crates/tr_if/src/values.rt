// What an atom says where a term in it equals another: the atom with the other one there.
ghost use Rattle.std.specs.Prelude.{◌≡◌, [], ◌∷◌, IfOk};
ghost use Rattle.tasks.specs.trees.Node.{tree_at};
ghost use Rattle.tasks.specs.Task.{neg};
ghost use Rattle.congruence.specs.kernel.rules.Forms.{alike, equal};
ghost use Rattle.evidence.specs.Drafts.{AddsTrees, Extends, Refutes, IsFormulaAt};
ghost use Rattle.tr_if.specs.Values.{IsPlacedTerm};

use evidence::proof_scripts::{Line, Places, Word, derive};
use evidence::{Draft, negation};
use std::alloc::AllocError;
use tasks::{Grow, Node, Op, TermId};

/// Two formulas that are one with a hole, at two terms.
#[derive(Clone, Copy)]
pub(crate) struct PlacedTerm {
    pub hole: TermId,
    pub left: TermId,
    pub right: TermId,
    pub old: TermId,
    pub new: TermId,
}

// The equation of two terms.
fn equation_of(draft: &mut Draft, k: PlacedTerm) -> Result<TermId, AllocError>
    requires placed { IsPlacedTerm draft.old k }
    ensures formula { IfOk result (IsFormulaAt draft.new) }
    ensures tree { IfOk result (λ id. tree_at draft.new.trees id
        ≡ equal (tree_at draft.old.trees k.old) (tree_at draft.old.trees k.new)) }
    ensures grows { AddsTrees draft.old draft.new }
{
    let made = draft.add(Node::Eq(k.old, k.new))?;
    Ok(made)
}

/// The negation of `l <-> r`.
pub(crate) fn denial_of(draft: &mut Draft, l: TermId, r: TermId) -> Result<TermId, AllocError>
    requires left { IsFormulaAt draft.old l }
    requires right { IsFormulaAt draft.old r }
    ensures formula { IfOk result (IsFormulaAt draft.new) }
    ensures tree { IfOk result (λ id. tree_at draft.new.trees id
        ≡ neg (alike (tree_at draft.old.trees l) (tree_at draft.old.trees r))) }
    ensures grows { AddsTrees draft.old draft.new }
{
    let claimed = draft.add(Node::Join(Op::Iff, l, r))?;
    let made = negation(draft, claimed)?;
    Ok(made)
}

/// [h; not (P <-> Q)], from [h; not (a = b)], where P is a formula at `a`, and Q the same at `b`.
pub(crate) fn value_in_place(
    draft: &mut Draft,
    hypothesis: TermId,
    k: PlacedTerm,
    value: usize,
) -> Result<usize, AllocError>
    requires hypothesis { IsFormulaAt draft.old hypothesis }
    requires placed { IsPlacedTerm draft.old k }
    requires value { Refutes draft.old value (tree_at draft.old.trees hypothesis
        ∷ neg (alike (tree_at draft.old.trees k.old) (tree_at draft.old.trees k.new)) ∷ []) }
    ensures refutes { IfOk result (λ n. Refutes draft.new n (tree_at draft.old.trees hypothesis
        ∷ neg (alike (tree_at draft.old.trees k.left) (tree_at draft.old.trees k.right))
        ∷ [])) }
    ensures grows { Extends draft.old draft.new }
{
    let link = equation_of(draft, k)?;
    let goal = denial_of(draft, k.left, k.right)?;
    let template = draft.add(Node::Not(k.hole))?;
    derive(
        draft,
        &[],
        &[hypothesis, goal],
        &[
            Line::Failing(Op::Iff, 1),
            Line::Cut(link),
            Line::Rule(Word::Replace(4, 2, k.hole)),
            Line::Rule(Word::Clash(5, 3)),
            Line::Kept(value, Places::Two(0, 4)),
            Line::Cut(link),
            Line::Rule(Word::Replace(4, 2, template)),
            Line::Rule(Word::Clash(3, 5)),
            Line::Kept(value, Places::Two(0, 4)),
        ],
    )
}
