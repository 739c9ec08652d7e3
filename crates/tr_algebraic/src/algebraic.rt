// The transformation that makes algebraic types symbols with their laws.
ghost use Rattle.tr_algebraic.specs.Equation.{algebraic_equation};
ghost use Rattle.tr_algebraic.specs.Kept.{algebraic_task_keeps};

use crate::citing::cite_fact;
use crate::draft_images::changed_tasks;
use crate::making::algebraic_tasks;
use evidence::{Draft, StageFault, Transform};
use std::alloc::{AllocError, Global};
use tasks::{Fact, Store, Task, TermId};
use tr_match::Matches;
use walking::rule_rewriting::{FormulaScope, glue_rewritten};

/// The transformation that makes each `match` its `if` form and then, in the place of each group of algebraic types, puts type by type
/// the type, and for each constructor its symbol and its projections, and after all types their laws: each projection gives its field,
/// each two constructors differ, each value is made by a constructor on its own fields. It gives one task, and takes none in which a
/// definition or an inductive declaration stands.
#[derive(Clone, Copy)]
pub struct AlgebraicTypes;

impl Transform for AlgebraicTypes {
    ghost equation = { λ _ from. algebraic_equation from };

    /// The task, or the declaration that isn't taken, which is told before anything is made.
    fn make(&self, alloc: Global, store: &mut Store, task: &Task) -> Result<Vec<Task>, StageFault> {
        algebraic_tasks(alloc, store, task)
    }

    fn fact(
        &self,
        from: &Task,
        to: &Task,
        name: Fact,
        types: &[TermId],
        formula: TermId,
        draft: &mut Draft,
    ) -> Result<usize, AllocError> {
        cite_fact(from, to, name, types, formula, draft)
    }

    fn glue(
        &self,
        from: &Task,
        to: &Vec<Task>,
        ends: &[usize],
        draft: &mut Draft,
    ) -> Result<usize, AllocError> {
        let plain = changed_tasks(draft, &Matches, from, &to[0])?;
        let everywhere = FormulaScope::Everywhere;
        let step = glue_rewritten(&Matches, everywhere, from, &plain, ends, draft)?;
        Ok(step)
    }

    ghost keeps = { λ _ t ts valid gives. algebraic_task_keeps t ts valid gives };
}
