// The transformation that simplifies formulas by the laws: the rule at a node, its evidence, and the transformation by it.
ghost use Rattle.std.specs.Prelude.{◌≡◌};
ghost use Rattle.tasks.specs.Vocabulary.{of_task};
ghost use Rattle.walking.specs.rule_rewriting.Kept.{rule_keeps_formulas, rule_commutes};
ghost use Rattle.walking.specs.images.Images.{image};
ghost use Rattle.tr_simplify.specs.Laws.{simplify_rule, simplify_others};
ghost use Rattle.tr_simplify.specs.SimplifyKept.{simplify_typed_rule};
ghost use Rattle.tr_simplify.specs.SimplifyAtTypes.{simplify_at_types};
ghost use Rattle.tr_simplify.specs.Kept.{simplified_equation, simplified_keep};

use crate::linking::{has_laws, link_law};
use crate::simplifying::simplify_node;
use congruence::AlikeBy;
use evidence::{Draft, StageFault, Transform};
use std::alloc::{AllocError, Global};
use tasks::{Fact, Grow, Store, Task};
use trees::TermId;
use walking::rule_rewriting::{
    FormulaImage, FormulaScope, RewriteFormulas, TaskRule, cite_rewritten, glue_rewritten,
    image_by_rule, rewrite_by_rule, scoped_tasks,
};
use walking::{Linked, Rewrite};

/// The transformation that simplifies propositions, locals and the goal by the laws, from the leaves up. It gives one task.
#[derive(Clone, Copy)]
pub struct SimplifiedFormulas;

impl TaskRule for SimplifiedFormulas {
    ghost rule = { λ _ _. simplify_rule };

    fn at_node<G: Grow>(
        &self,
        alloc: Global,
        g: &mut G,
        task: &Task,
        e: TermId,
    ) -> Result<TermId, AllocError> {
        let _ = task;
        simplify_node(alloc, g, e)
    }

    ghost typed_rule = { λ _ t _. simplify_typed_rule (of_task t) };

    ghost rule_at_types = { λ _ t _. simplify_at_types (of_task t) };
}

impl Rewrite for SimplifiedFormulas {
    ghost rule = { λ _ _. simplify_rule };

    ghost Ready = { λ _ _. Unit {0} };

    ghost stays_ready = { λ _ d d1 x r. r };

    ghost others = { λ _ _. simplify_others };

    fn link(
        &self,
        draft: &mut Draft,
        env: &[TermId],
        e: TermId,
        left: TermId,
        fresh: usize,
    ) -> Result<Linked, AllocError> {
        if has_laws(draft.store(), e) {
            return link_law(draft, env, e, left, fresh);
        }
        Ok(Linked {
            image: e,
            right: left,
            alike: AlikeBy::Same,
        })
    }
}

impl RewriteFormulas for SimplifiedFormulas {
    ghost function = { λ _ _. image simplify_rule };

    ghost Ready = { λ _ _ _. Unit {0} };

    fn image_of(
        &self,
        alloc: Global,
        store: &mut Store,
        task: &Task,
        formula: TermId,
    ) -> Result<TermId, StageFault> {
        image_by_rule(alloc, store, self, task, formula)
    }

    fn rewrite(
        &self,
        draft: &mut Draft,
        from: &Task,
        formula: TermId,
    ) -> Result<FormulaImage, AllocError> {
        let _ = from;
        rewrite_by_rule(self, draft, formula)
    }

    ghost stays_ready = { λ _ t s s1 w r. r };

    ghost keeps_typing = { λ _ t _. rule_keeps_formulas (of_task t) simplify_rule (simplify_typed_rule (of_task t)) };

    ghost at_types = { λ _ t _. rule_commutes (of_task t) simplify_rule (simplify_typed_rule (of_task t)) (simplify_at_types (of_task t)) };
}

impl Transform for SimplifiedFormulas {
    ghost equation = { λ _ from. simplified_equation from };

    /// The task with its formulas simplified.
    fn make(&self, alloc: Global, store: &mut Store, task: &Task) -> Result<Vec<Task>, StageFault> {
        scoped_tasks(alloc, store, self, FormulaScope::Everywhere, task)
    }

    fn fact(
        &self,
        from: &Task,
        to: &Task,
        name: Fact,
        types: &[TermId],
        formula: TermId,
        draft: &mut Draft,
    ) -> Result<usize, AllocError> {
        let everywhere = FormulaScope::Everywhere;
        cite_rewritten(self, everywhere, from, to, name, types, formula, draft)
    }

    fn glue(
        &self,
        from: &Task,
        to: &Vec<Task>,
        ends: &[usize],
        draft: &mut Draft,
    ) -> Result<usize, AllocError> {
        let everywhere = FormulaScope::Everywhere;
        glue_rewritten(self, everywhere, from, to, ends, draft)
    }

    ghost keeps = { λ _ t ts valid gives. simplified_keep t ts valid gives };
}
