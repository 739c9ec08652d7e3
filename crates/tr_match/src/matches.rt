// The transformation that makes `match`es their `if` forms: the rule at a node, its evidence, and the transformation by it.
ghost use Rattle.std.specs.Prelude.{◌≡◌};
ghost use Rattle.tr_match.specs.match_forms.Forms.{match_rule, without_matches};
ghost use Rattle.tr_match.specs.Kept.{match_stays, match_keeps_typing, match_commutes, matches_keep_typing, matches_commute, matches_equation, matches_keep};

use crate::linking::link_match;
use crate::match_forms::match_node;
use congruence::AlikeBy;
use evidence::{Draft, StageFault, Transform};
use std::alloc::{AllocError, Global};
use tasks::{Fact, Grow, Lookup, Node, Store, Task, TermId};
use walking::rule_rewriting::{
    FormulaImage, FormulaScope, RewriteFormulas, TaskRule, cite_rewritten, glue_rewritten,
    image_by_rule, rewrite_by_rule, scoped_tasks,
};
use walking::{Linked, Rewrite};

/// The transformation that makes each `match` its `if` form, in propositions, locals and the goal: its branches' bodies at the terms
/// for their patterns' variables, under the patterns' tests; the last branch has no test. It gives one task.
#[derive(Clone, Copy)]
pub struct Matches;

impl TaskRule for Matches {
    ghost rule = { λ _ t. match_rule t };

    fn at_node<G: Grow>(
        &self,
        alloc: Global,
        g: &mut G,
        task: &Task,
        e: TermId,
    ) -> Result<TermId, AllocError> {
        let look = Lookup::without_index(task);
        let made = match_node(alloc, g, look, e)?;
        Ok(made)
    }

    ghost typed_rule = { λ _ t valid. match_keeps_typing t valid };

    ghost rule_at_types = { λ _ t valid. match_commutes t valid };
}

impl Rewrite for Matches {
    ghost rule = { λ _ t. match_rule t };

    ghost Ready = { λ _ _. Unit {0} };

    ghost stays_ready = { λ _ d d1 x r. r };

    ghost others = { λ _ t. match_stays t };

    fn link(
        &self,
        draft: &mut Draft,
        env: &[TermId],
        e: TermId,
        left: TermId,
        fresh: usize,
    ) -> Result<Linked, AllocError> {
        match draft.store().node(e) {
            Node::Case(_, _) => {
                let made = link_match(draft, env, e, left, fresh)?;
                Ok(made)
            }
            _ => Ok(Linked {
                image: e,
                right: left,
                alike: AlikeBy::Same,
            }),
        }
    }
}

impl RewriteFormulas for Matches {
    ghost function = { λ _ t. without_matches t };

    ghost Ready = { λ _ _ _. Unit {0} };

    fn image_of(
        &self,
        alloc: Global,
        store: &mut Store,
        task: &Task,
        formula: TermId,
    ) -> Result<TermId, StageFault> {
        let made = image_by_rule(alloc, store, self, task, formula)?;
        Ok(made)
    }

    fn rewrite(
        &self,
        draft: &mut Draft,
        from: &Task,
        formula: TermId,
    ) -> Result<FormulaImage, AllocError> {
        let _ = from;
        let made = rewrite_by_rule(self, draft, formula)?;
        Ok(made)
    }

    ghost stays_ready = { λ _ t s s1 w r. r };

    ghost keeps_typing = { λ _ t valid. matches_keep_typing t valid };

    ghost at_types = { λ _ t valid. matches_commute t valid };
}

impl Transform for Matches {
    ghost equation = { λ _ from. matches_equation from };

    /// The task with each `match` in its `if` form.
    fn make(&self, alloc: Global, store: &mut Store, task: &Task) -> Result<Vec<Task>, StageFault> {
        let made = scoped_tasks(alloc, store, self, FormulaScope::Everywhere, task)?;
        Ok(made)
    }

    fn fact(
        &self,
        from: &Task,
        to: &Task,
        name: Fact,
        types: &[TermId],
        formula: TermId,
        draft: &mut Draft,
    ) -> Result<usize, AllocError> {
        let everywhere = FormulaScope::Everywhere;
        cite_rewritten(self, everywhere, from, to, name, types, formula, draft)
    }

    fn glue(
        &self,
        from: &Task,
        to: &Vec<Task>,
        ends: &[usize],
        draft: &mut Draft,
    ) -> Result<usize, AllocError> {
        let everywhere = FormulaScope::Everywhere;
        glue_rewritten(self, everywhere, from, to, ends, draft)
    }

    ghost keeps = { λ _ t ts valid gives. matches_keep t ts valid gives };
}
