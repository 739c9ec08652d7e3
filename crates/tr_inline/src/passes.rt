// Evidence for a formula with definitions inlined: a walk for each, from the last to the first.
ghost use Rattle.std.specs.Prelude.{◌≡◌, ◌≤◌, [], length, IfOk};
ghost use Rattle.trees.specs.Tree.{Tree, above_params};
ghost use Rattle.trees.specs.Node.{tree_at};
ghost use Rattle.tasks.specs.Meaning.{definition_at, definitions_at};
ghost use Rattle.evidence.specs.Drafts.{Extends, IsFormulaAt};
ghost use Rattle.walking.specs.Places.{IsLinkOf};
ghost use Rattle.inlining.specs.Inlining.{with_uses_unfolded, inlined};
ghost use Rattle.tr_inline.specs.Definitions.{IsDefinedIn, AreDefinedIn};
ghost use Rattle.tr_inline.specs.Inlined.{IsImageOf};

use crate::unfolding::Unfold;
use congruence::{AlikeBy, chain, make_halves};
use evidence::Draft;
use std::alloc::AllocError;
use tasks::{Def, TermId};
use walking::rewriting::FormulaImage;
use walking::{Linked, walk};

// How many parameters the task has.
fn parameter_count(draft: &Draft) -> usize
    ensures { result ≡ length draft.now.task.params }
{
    draft.task().params.len()
}

// One definition more, when those that follow it are unfolded.
fn unfold_link(
    draft: &mut Draft,
    formula: TermId,
    so_far: Linked,
    def: Def,
    fresh: usize,
) -> Result<Linked, AllocError>
    requires formula { IsFormulaAt draft.old formula }
    requires so_far { IsLinkOf draft.old [] formula fresh (tree_at draft.old.trees so_far.image)
        so_far }
    requires defined { IsDefinedIn draft.old def }
    ensures link { IfOk result (IsLinkOf draft.new [] formula fresh (with_uses_unfolded
        (definition_at draft.old.trees def) (tree_at draft.old.trees so_far.image))) }
    ensures grows { Extends draft.old draft.new }
{
    let unfold = Unfold { def };
    let made = walk(&unfold, draft, &[], so_far.image, so_far.right, fresh)?;
    let alike = chain(
        draft,
        formula,
        so_far.right,
        made.right,
        so_far.alike,
        made.alike,
    )?;
    Ok(Linked {
        image: made.image,
        right: made.right,
        alike,
    })
}

// A formula of the task with these definitions inlined, and evidence that the two are alike.
fn inline_link(
    draft: &mut Draft,
    formula: TermId,
    defs: Vec<Def>,
    fresh: usize,
) -> Result<Linked, AllocError>
    requires formula { IsFormulaAt draft.old formula }
    requires below { above_params (tree_at draft.old.trees formula)
        ≤ length draft.old.task.params }
    requires defined { AreDefinedIn draft.old defs.items }
    requires fresh { fresh ≡ length draft.old.task.params }
    ensures link { IfOk result (IsLinkOf draft.new [] formula fresh
        (inlined (definitions_at draft.old.trees defs.items) (tree_at draft.old.trees formula))) }
    ensures grows { Extends draft.old draft.new }
{
    let mut left = defs;
    let mut made = Linked {
        image: formula,
        right: formula,
        alike: AlikeBy::Same,
    };
    while let Some(def) = left.pop() {
        made = unfold_link(draft, formula, made, def, fresh)?;
    }
    Ok(made)
}

/// A formula of the task with these definitions inlined, and steps for the two halves of their equivalence.
pub(crate) fn inline_by_passes(
    draft: &mut Draft,
    formula: TermId,
    defs: Vec<Def>,
) -> Result<FormulaImage, AllocError>
    requires formula { IsFormulaAt draft.old formula }
    requires below { above_params (tree_at draft.old.trees formula)
        ≤ length draft.old.task.params }
    requires defined { AreDefinedIn draft.old defs.items }
    ensures image { IfOk result (IsImageOf draft.new (tree_at draft.old.trees formula)
        (inlined (definitions_at draft.old.trees defs.items) (tree_at draft.old.trees formula))) }
    ensures grows { Extends draft.old draft.new }
{
    let number = parameter_count(draft);
    let made = inline_link(draft, formula, defs, number)?;
    let halves = make_halves(draft, formula, made.right, made.alike)?;
    Ok(FormulaImage {
        image: made.image,
        there: halves.there,
        back: halves.back,
    })
}
