// A closed formula and its image under a rule.
ghost use Rattle.std.specs.Prelude.{◌≡◌, ◌≤◌, [], ◌∷◌, length, IfOk};
ghost use Rattle.trees.specs.Tree.{Tree, above_params};
ghost use Rattle.trees.specs.Node.{tree_at};
ghost use Rattle.tasks.specs.Task.{neg};
ghost use Rattle.evidence.specs.Drafts.{Extends, Refutes, IsFormulaAt};
ghost use Rattle.images.specs.Images.{image};
ghost use Rattle.walking.specs.Places.{IsLinkOf};

use crate::linked::Linked;
use crate::walking::{Rewrite, walk};
use congruence::make_halves;
use evidence::Draft;
use std::alloc::AllocError;
use trees::TermId;

// How many parameters the task has.
fn parameter_count(draft: &Draft) -> usize
    ensures { result ≡ length draft.now.task.params }
{
    draft.task().params.len()
}

// The walk of a closed formula.
fn walk_formula<R: Rewrite>(
    rewrite: &R,
    draft: &mut Draft,
    formula: TermId,
) -> Result<Linked, AllocError>
    requires ready { R.Ready rewrite.now draft.old }
    requires formula { IsFormulaAt draft.old formula }
    requires own { above_params (tree_at draft.old.trees formula) ≤ length draft.old.task.params }
    ensures link { IfOk result (IsLinkOf draft.new [] formula (length draft.old.task.params)
        (image (R.rule rewrite.now draft.old.task) (tree_at draft.old.trees formula))) }
    ensures grows { Extends draft.old draft.new }
{
    let number = parameter_count(draft);
    walk(rewrite, draft, &[], formula, formula, number)
}

/// The image of a formula, and steps for the two halves of their equivalence.
#[derive(Clone, Copy)]
pub struct Rewritten {
    pub image: TermId,
    pub there: usize,
    pub back: usize,
}

/// A formula of the task, with parameters of the task alone, is equivalent to its image.
pub fn rewrite_formula<R: Rewrite>(
    rewrite: &R,
    draft: &mut Draft,
    formula: TermId,
) -> Result<Rewritten, AllocError>
    requires ready { R.Ready rewrite.now draft.old }
    requires formula { IsFormulaAt draft.old formula }
    requires own { above_params (tree_at draft.old.trees formula) ≤ length draft.old.task.params }
    ensures formula { IfOk result (λ m. IsFormulaAt draft.new m.image) }
    ensures image { IfOk result (λ m. tree_at draft.new.trees m.image
        ≡ image (R.rule rewrite.now draft.old.task) (tree_at draft.old.trees formula)) }
    ensures there { IfOk result (λ m. Refutes draft.new m.there
        (tree_at draft.old.trees formula ∷ neg (tree_at draft.new.trees m.image) ∷ [])) }
    ensures back { IfOk result (λ m. Refutes draft.new m.back
        (tree_at draft.new.trees m.image ∷ neg (tree_at draft.old.trees formula) ∷ [])) }
    ensures grows { Extends draft.old draft.new }
{
    let made = walk_formula(rewrite, draft, formula)?;
    let halves = make_halves(draft, formula, made.right, made.alike)?;
    Ok(Rewritten {
        image: made.image,
        there: halves.there,
        back: halves.back,
    })
}
