// What formulas become by inlining, over a store and with evidence.
ghost use Rattle.std.specs.Prelude.{◌≡◌, IfOk, IfErr};
ghost use Rattle.trees.specs.Node.{tree_at, Holds, Grows};
ghost use Rattle.tasks.specs.Meaning.{task_at};
ghost use Rattle.walking.specs.evidence.changed_tasks.Limits.{IsLarge};
ghost use Rattle.walking.specs.rewriting.Faults.{IsLimitFault};
ghost use Rattle.walking.specs.rewriting.Formulas.{CanRewrite, IsFormulaIn};
ghost use Rattle.tr_inline.specs.full_bodies.FullBodies.{AreReady};
ghost use Rattle.tr_inline.specs.Inlined.{inline_formula, AreBodiesOf, AreReadyBodies, bodies_later};
ghost use Rattle.tr_inline.specs.Kept.{formulas_keep, formulas_commute};

use crate::full_bodies::{
    FullBody, InlineFault, InlineMode, definitions_inlined, full_bodies, inline_formula,
};
use crate::passes::inline_by_passes;
use evidence::{Draft, StageFault};
use std::alloc::{AllocError, Global};
use tasks::{Grow, Store, Task, TermId};
use walking::rewriting::{FormulaImage, RewriteFormulas};

/// What formulas become in a mode, with the full bodies where they are made already.
#[derive(Clone, Copy)]
pub(crate) struct InlinedFormulas<'a> {
    pub mode: InlineMode,
    pub bodies: Option<&'a [FullBody]>,
}

// A formula with the definitions of the mode inlined, by their full bodies.
fn image_by_bodies(
    alloc: Global,
    store: &mut Store,
    task: &Task,
    mode: InlineMode,
    bodies: &[FullBody],
    formula: TermId,
) -> Result<TermId, StageFault>
    requires ready { AreReady store.old task.now bodies.now }
    requires bodies { AreBodiesOf mode (task_at store.old task.now) store.old bodies.now }
    requires formula { IsFormulaIn store.old (task_at store.old task.now) formula }
    ensures held { IfOk result (Holds store.new) }
    ensures tree { IfOk result (λ id. tree_at store.new id
        ≡ inline_formula mode (task_at store.old task.now) (tree_at store.old formula)) }
    ensures fault { IfErr result (IsLimitFault (IsLarge
        (inline_formula mode (task_at store.old task.now) (tree_at store.old formula)))) }
    ensures grows { Grows store.old store.new }
{
    let _ = mode;
    match inline_formula(alloc, store, task, bodies, formula) {
        Ok(made) => Ok(made),
        Err(InlineFault::Large) => Err(StageFault::TooLarge),
        Err(InlineFault::Memory) => Err(StageFault::Memory),
    }
}

// The same, by full bodies that are made for it.
fn image_afresh(
    alloc: Global,
    store: &mut Store,
    task: &Task,
    mode: InlineMode,
    formula: TermId,
) -> Result<TermId, StageFault>
    requires can { CanRewrite (λ _ _. Unit {0}) store.old task.now }
    requires formula { IsFormulaIn store.old (task_at store.old task.now) formula }
    ensures held { IfOk result (Holds store.new) }
    ensures tree { IfOk result (λ id. tree_at store.new id
        ≡ inline_formula mode (task_at store.old task.now) (tree_at store.old formula)) }
    ensures fault { IfErr result (IsLimitFault (IsLarge
        (inline_formula mode (task_at store.old task.now) (tree_at store.old formula)))) }
    ensures grows { Grows store.old store.new }
{
    let bodies = full_bodies(alloc, store, task, mode)?;
    let made = image_by_bodies(alloc, store, task, mode, &bodies, formula)?;
    Ok(made)
}

impl<'a> RewriteFormulas for InlinedFormulas<'a> {
    ghost function = { λ x t. inline_formula x.mode t };

    ghost Ready = { λ x t s. AreReadyBodies x.mode t s x.bodies };

    fn image_of(
        &self,
        alloc: Global,
        store: &mut Store,
        task: &Task,
        formula: TermId,
    ) -> Result<TermId, StageFault> {
        match self.bodies {
            Some(bodies) => image_by_bodies(alloc, store, task, self.mode, bodies, formula),
            None => image_afresh(alloc, store, task, self.mode, formula),
        }
    }

    fn rewrite(
        &self,
        draft: &mut Draft,
        from: &Task,
        formula: TermId,
    ) -> Result<FormulaImage, AllocError> {
        let defs = definitions_inlined(draft.allocator(), draft.store(), from, self.mode)?;
        let made = inline_by_passes(draft, formula, defs)?;
        Ok(made)
    }

    ghost stays_ready = { λ x t s s1 g r. bodies_later x.mode t s s1 x.bodies g r };

    ghost keeps_typing = { λ x t valid. formulas_keep x.mode t valid };

    ghost at_types = { λ x t valid. formulas_commute x.mode t valid };
}
