// The transformation that splits every goal.
ghost use Rattle.tr_split.specs.Goals.{split_equation};
ghost use Rattle.tr_split.specs.Kept.{split_keeps};

use crate::gluing::glue_goal;
use crate::parts::split_goal;
use evidence::{Draft, StageFault, Transform, fact_lemma};
use std::alloc::{AllocError, Global};
use tasks::{Fact, Store, Task, TermId};

/// The transformation that takes a goal apart, whatever the goal: a task for each part.
#[derive(Clone, Copy)]
pub struct Split;

impl Transform for Split {
    ghost equation = { λ _ from. split_equation from };

    /// A task for each part of the goal, in order.
    fn make(&self, alloc: Global, store: &mut Store, task: &Task) -> Result<Vec<Task>, StageFault> {
        Ok(split_goal(alloc, store, task)?)
    }

    fn fact(
        &self,
        from: &Task,
        to: &Task,
        name: Fact,
        types: &[TermId],
        formula: TermId,
        draft: &mut Draft,
    ) -> Result<usize, AllocError> {
        let _ = from;
        let _ = to;
        fact_lemma(draft, name, types, formula)
    }

    fn glue(
        &self,
        from: &Task,
        to: &Vec<Task>,
        ends: &[usize],
        draft: &mut Draft,
    ) -> Result<usize, AllocError> {
        let _ = to;
        let params = from.params.as_slice();
        glue_goal(draft, from.locals.as_slice(), from.goal, params, ends)
    }

    ghost keeps = { λ _ t ts valid gives. split_keeps t ts valid gives };
}
