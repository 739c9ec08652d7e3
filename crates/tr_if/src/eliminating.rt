// The transformation that brings conditionals out of formulas.
ghost use Rattle.tr_if.specs.Eliminated.{eliminated_formula, if_equation};
ghost use Rattle.tr_if.specs.Kept.{if_keeps_formulas, if_commutes, if_keeps};

use crate::conditionals::{GrowthFault, eliminate_ifs};
use crate::refused::refused_place;
use crate::rule::IfRule;
use evidence::{Draft, StageFault, Transform};
use std::alloc::{AllocError, Global};
use tasks::{Fact, Store, Task, TermId};
use walking::rewrite_formula;
use walking::rewriting::{
    FormulaImage, FormulaScope, RewriteFormulas, cite_rewritten, glue_rewritten, scoped_tasks,
};

/// The transformation that brings conditionals out of propositions, locals and goal: a conditional formula becomes two
/// implications, and an atom with conditional terms becomes implications under their conditions, one conditional at a time, the
/// first in preorder first. It gives one task, and takes none in which one of these formulas has a `let` or `match`.
#[derive(Clone, Copy)]
pub struct Conditionals;

impl RewriteFormulas for Conditionals {
    ghost function = { λ _. eliminated_formula };

    ghost Ready = { λ _ _ _. Unit {0} };

    /// The formula without conditionals, or `TooLarge` where it has more than 2^20 tree nodes.
    fn image_of(
        &self,
        alloc: Global,
        store: &mut Store,
        task: &Task,
        formula: TermId,
    ) -> Result<TermId, StageFault> {
        let _ = alloc;
        let _ = task;
        match eliminate_ifs(store, formula) {
            Ok(made) => Ok(made),
            Err(GrowthFault::Memory) => Err(StageFault::Memory),
            Err(GrowthFault::TooLarge) => Err(StageFault::TooLarge),
        }
    }

    fn rewrite(
        &self,
        draft: &mut Draft,
        from: &Task,
        formula: TermId,
    ) -> Result<FormulaImage, AllocError> {
        let _ = from;
        let made = rewrite_formula(&IfRule, draft, formula)?;
        Ok(FormulaImage {
            image: made.image,
            there: made.there,
            back: made.back,
        })
    }

    ghost stays_ready = { λ _ _ _ _ _ r. r };

    ghost keeps_typing = { λ _ t _. if_keeps_formulas t };

    ghost at_types = { λ _ t _. if_commutes t };
}

impl Transform for Conditionals {
    ghost equation = { λ _ from. if_equation from };

    /// The task without conditionals, or the declaration that isn't taken, which is told before anything is made.
    fn make(&self, alloc: Global, store: &mut Store, task: &Task) -> Result<Vec<Task>, StageFault> {
        match refused_place(store, task) {
            Some(decl) => Err(StageFault::Misplaced { decl }),
            None => scoped_tasks(alloc, store, self, FormulaScope::Everywhere, task),
        }
    }

    fn fact(
        &self,
        from: &Task,
        to: &Task,
        name: Fact,
        types: &[TermId],
        formula: TermId,
        draft: &mut Draft,
    ) -> Result<usize, AllocError> {
        let scope = FormulaScope::Everywhere;
        cite_rewritten(self, scope, from, to, name, types, formula, draft)
    }

    fn glue(
        &self,
        from: &Task,
        to: &Vec<Task>,
        ends: &[usize],
        draft: &mut Draft,
    ) -> Result<usize, AllocError> {
        glue_rewritten(self, FormulaScope::Everywhere, from, to, ends, draft)
    }

    ghost keeps = { λ _ t ts valid gives. if_keeps t ts valid gives };
}
