// The transformation that puts out `let`: the rule at a node, its evidence, and the transformation by it.
ghost use Rattle.std.specs.Prelude.{◌≡◌};
ghost use Rattle.tasks.specs.Vocabulary.{of_task};
ghost use Rattle.walking.specs.rule_rewriting.Kept.{rule_keeps_formulas, rule_commutes};
ghost use Rattle.walking.specs.images.Images.{image};
ghost use Rattle.tr_let.specs.LetRule.{let_rule, let_others};
ghost use Rattle.tr_let.specs.LetKept.{let_typed_rule, let_at_types};
ghost use Rattle.tr_let.specs.Kept.{lets_equation, lets_keep};

use crate::linking::{LetParts, link_let};
use crate::putting::put_value;
use congruence::AlikeBy;
use evidence::{Draft, StageFault, Transform};
use std::alloc::{AllocError, Global};
use tasks::{Fact, Grow, Store, Task};
use trees::{Node, TermId};
use walking::rule_rewriting::{
    FormulaImage, FormulaScope, RewriteFormulas, TaskRule, cite_rewritten, glue_rewritten,
    image_by_rule, rewrite_by_rule, scoped_tasks,
};
use walking::{Linked, Rewrite};

/// The transformation that puts out `let`: each becomes its body at its value, in propositions, locals and the goal. It gives one
/// task.
#[derive(Clone, Copy)]
pub struct Lets;

impl TaskRule for Lets {
    ghost rule = { λ _ _. let_rule };

    fn at_node<G: Grow>(
        &self,
        alloc: Global,
        g: &mut G,
        task: &Task,
        e: TermId,
    ) -> Result<TermId, AllocError> {
        let _ = task;
        match g.store().node(e) {
            Node::Let(value, body) => { put_value(alloc, g, e, value, body) }
            _ => Ok(e),
        }
    }

    ghost typed_rule = { λ _ t _. let_typed_rule (of_task t) };

    ghost rule_at_types = { λ _ t _. let_at_types (of_task t) };
}

impl Rewrite for Lets {
    ghost rule = { λ _ _. let_rule };

    ghost Ready = { λ _ _. Unit {0} };

    ghost stays_ready = { λ _ d d1 x r. r };

    ghost others = { λ _ _. let_others };

    fn link(
        &self,
        draft: &mut Draft,
        env: &[TermId],
        e: TermId,
        left: TermId,
        fresh: usize,
    ) -> Result<Linked, AllocError> {
        match draft.store().node(e) {
            Node::Let(value, body) => {
                let open = LetParts { value, body };
                link_let(draft, env, e, left, open, fresh)
            }
            _ => Ok(Linked {
                image: e,
                right: left,
                alike: AlikeBy::Same,
            }),
        }
    }
}

impl RewriteFormulas for Lets {
    ghost function = { λ _ _. image let_rule };

    ghost Ready = { λ _ _ _. Unit {0} };

    fn image_of(
        &self,
        alloc: Global,
        store: &mut Store,
        task: &Task,
        formula: TermId,
    ) -> Result<TermId, StageFault> {
        image_by_rule(alloc, store, self, task, formula)
    }

    fn rewrite(
        &self,
        draft: &mut Draft,
        from: &Task,
        formula: TermId,
    ) -> Result<FormulaImage, AllocError> {
        let _ = from;
        rewrite_by_rule(self, draft, formula)
    }

    ghost stays_ready = { λ _ t s s1 w r. r };

    ghost keeps_typing = { λ _ t _. rule_keeps_formulas (of_task t) let_rule (let_typed_rule (of_task t)) };

    ghost at_types = { λ _ t _. rule_commutes (of_task t) let_rule (let_typed_rule (of_task t)) (let_at_types (of_task t)) };
}

impl Transform for Lets {
    ghost equation = { λ _ from. lets_equation from };

    /// The task with each `let` put out.
    fn make(&self, alloc: Global, store: &mut Store, task: &Task) -> Result<Vec<Task>, StageFault> {
        scoped_tasks(alloc, store, self, FormulaScope::Everywhere, task)
    }

    fn fact(
        &self,
        from: &Task,
        to: &Task,
        name: Fact,
        types: &[TermId],
        formula: TermId,
        draft: &mut Draft,
    ) -> Result<usize, AllocError> {
        let everywhere = FormulaScope::Everywhere;
        cite_rewritten(self, everywhere, from, to, name, types, formula, draft)
    }

    fn glue(
        &self,
        from: &Task,
        to: &Vec<Task>,
        ends: &[usize],
        draft: &mut Draft,
    ) -> Result<usize, AllocError> {
        let everywhere = FormulaScope::Everywhere;
        glue_rewritten(self, everywhere, from, to, ends, draft)
    }

    ghost keeps = { λ _ t ts valid gives. lets_keep t ts valid gives };
}
