// The evidence of a formula's image under a rule.
ghost use Rattle.std.specs.Prelude.{◌≡◌, ◌≤◌, [], ◌∷◌, length, IfOk};
ghost use Rattle.trees.specs.Tree.{above_params};
ghost use Rattle.trees.specs.Node.{tree_at};
ghost use Rattle.tasks.specs.Task.{neg};
ghost use Rattle.evidence.specs.Drafts.{Extends, Refutes, IsFormulaAt};
ghost use Rattle.images.specs.Images.{image};

use crate::rewriting::FormulaImage;
use crate::{Rewrite, rewrite_formula};
use evidence::Draft;
use std::alloc::AllocError;
use tasks::TermId;

/// The image of a formula of the draft's task under a rule, and steps for the two halves of their equivalence.
pub fn rewrite_by_rule<R: Rewrite>(
    rule: &R,
    draft: &mut Draft,
    formula: TermId,
) -> Result<FormulaImage, AllocError>
    requires ready { R.Ready rule.now draft.old }
    requires formula { IsFormulaAt draft.old formula }
    requires below { above_params (tree_at draft.old.trees formula)
        ≤ length draft.old.task.params }
    ensures formula { IfOk result (λ m. IsFormulaAt draft.new m.image) }
    ensures image { IfOk result (λ m. tree_at draft.new.trees m.image
        ≡ image (R.rule rule.now draft.old.task) (tree_at draft.old.trees formula)) }
    ensures there { IfOk result (λ m. Refutes draft.new m.there
        (tree_at draft.old.trees formula ∷ neg (tree_at draft.new.trees m.image) ∷ [])) }
    ensures back { IfOk result (λ m. Refutes draft.new m.back
        (tree_at draft.new.trees m.image ∷ neg (tree_at draft.old.trees formula) ∷ [])) }
    ensures grows { Extends draft.old draft.new }
{
    let made = rewrite_formula(rule, draft, formula)?;
    Ok(FormulaImage {
        image: made.image,
        there: made.there,
        back: made.back,
    })
}
