// Facts of the task that is made, refuted in the old task when negated: images of propositions by what a formula becomes, and laws of
// algebraic types by their own evidence.
// It depends on the evidence of images and of laws; the transformation cites by it.
ghost use Rattle.std.specs.Prelude.{[], ◌∷◌, All, IfOk};
ghost use Rattle.tasks.specs.trees.Node.{tree_at, Holds};
ghost use Rattle.tasks.specs.Task.{neg};
ghost use Rattle.tasks.specs.Meaning.{trees_at, task_at};
ghost use Rattle.evidence.specs.Drafts.{Extends, Refutes, IsFormulaAt};
ghost use Rattle.evidence.specs.Facts.{IsFact};
ghost use Rattle.evidence.specs.Stages.{InStage};
ghost use Rattle.tr_algebraic.specs.Equation.{algebraic_equation};

use crate::algebraic_tasks::{PropositionOrigin, origin_of};
use crate::draft_images::cite_image;
use crate::law_evidence::refute_law;
use evidence::{Draft, fact_lemma};
use std::alloc::AllocError;
use tasks::{Fact, Grow, Task, TermId};
use tr_match::Matches;

/// A step whose sequent is the negation of a fact of the task that is made, at these types, alone.
pub(crate) fn cite_fact(
    from: &Task,
    to: &Task,
    name: Fact,
    types: &[TermId],
    formula: TermId,
    draft: &mut Draft,
) -> Result<usize, AllocError>
    requires stage { InStage algebraic_equation draft.old from.now to.now }
    requires types_held { All (Holds draft.old.trees) types.now }
    requires formula { IsFormulaAt draft.old formula }
    requires fact { IsFact draft.old.task (task_at draft.old.trees to.now) name
        (trees_at draft.old.trees types.now) (tree_at draft.old.trees formula) }
    ensures refutes { IfOk result (λ k. Refutes draft.new k
        (neg (tree_at draft.old.trees formula) ∷ [])) }
    ensures grows { Extends draft.old draft.new }
{
    let _ = to;
    let Fact::Proposition(k) = name else {
        return fact_lemma(draft, name, types, formula);
    };
    match origin_of(draft.store(), from.decls.as_slice(), 0, k) {
        Some(PropositionOrigin::Proposition(number)) => {
            cite_image(&Matches, from, number, types, formula, draft)
        }
        Some(PropositionOrigin::Law(kind)) => refute_law(draft, kind, formula),
        None => unreachable!(),
    }
}
