// Rules for nodes of a task, and the image of a formula under one.
ghost use Rattle.std.specs.Prelude.{◌≡◌, List, IfOk, IfErr};
ghost use Rattle.trees.specs.Tree.{Tree};
ghost use Rattle.trees.specs.Node.{tree_at, Holds, Grows};
ghost use Rattle.tasks.specs.Task.{TaskTree};
ghost use Rattle.tasks.specs.Meaning.{task_at};
ghost use Rattle.tasks.specs.Vocabulary.{of_task};
ghost use Rattle.tasks.specs.Valid.{IsValid};
ghost use Rattle.images.specs.Images.{image};
ghost use Rattle.evidence.specs.changed_tasks.Limits.{IsLarge};
ghost use Rattle.walking.specs.rewriting.Faults.{IsLimitFault};
ghost use Rattle.walking.specs.rewriting.Formulas.{IsFormulaIn};
ghost use Rattle.walking.specs.rule_rewriting.Rules.{HasTypingSomewhere, CommutesAtNodes, IsValidTaskIn, rule_at_task, task_stays, valid_stays};
ghost use Rattle.images.specs.typing_laws.HasTyping.{IsTypedRule};

use evidence::StageFault;
use images::image_trees::{NodeRule, image_tree};
use std::alloc::{AllocError, Global};
use tasks::{Grow, Store, Task, TermId};

/// A rule for nodes of a task, over what grows by trees.
pub trait TaskRule {
    /// What it makes of a node over images.
    ghost rule: { Self → TaskTree → Tree → Tree };

    /// What the rule makes of a typed node.
    fn at_node<G: Grow>(
        &self,
        alloc: Global,
        g: &mut G,
        task: &Task,
        e: TermId,
    ) -> Result<TermId, AllocError>
        requires task { IsValidTaskIn (G.trees g.old) task.now }
        requires held { Holds (G.trees g.old) e }
        requires typed { HasTypingSomewhere (of_task (task_at (G.trees g.old) task.now))
            (tree_at (G.trees g.old) e) }
        ensures held { IfOk result (Holds (G.trees g.new)) }
        ensures tree { IfOk result (λ id. tree_at (G.trees g.new) id
            ≡ rule self.now (task_at (G.trees g.old) task.now) (tree_at (G.trees g.old) e)) }
        ensures grows { G.grows g.old g.new };

    /// It acts at operators of terms and formulas alone, and keeps typing.
    ghost typed_rule: { (x : Self) (t : TaskTree) → IsValid t → IsTypedRule (of_task t) (rule x t) };

    /// At a node at types it gives what it gives at the node, at the types.
    ghost rule_at_types: { (x : Self) (t : TaskTree) → IsValid t → CommutesAtNodes (of_task t) (rule x t) };
}

// A rule at a task.
#[derive(Clone, Copy)]
struct RuleAt<'a, R> {
    rule: &'a R,
    task: &'a Task,
}

impl<'a, R: TaskRule> NodeRule for RuleAt<'a, R> {
    ghost rule_over = { λ x s. rule_at_task (R.rule x.rule.now) (task_at s x.task.now) };

    ghost Ready = { λ x s. IsValidTaskIn s x.task.now };

    fn at_node<G: Grow>(&self, alloc: Global, g: &mut G, e: TermId) -> Result<TermId, AllocError> {
        let made = self.rule.at_node(alloc, g, self.task, e)?;
        Ok(made)
    }

    ghost stays_ready = { λ x s t w r. valid_stays x.task.now s t w r };

    ghost stays = { λ x s t w r. task_stays (R.rule x.rule.now) x.task.now s t w r };

    ghost keeps = { λ x s r. R.typed_rule x.rule.now (task_at s x.task.now) r.valid };
}

/// What a closed formula of a task becomes by a rule.
pub fn image_by_rule<R: TaskRule>(
    alloc: Global,
    store: &mut Store,
    rule: &R,
    task: &Task,
    formula: TermId,
) -> Result<TermId, StageFault>
    requires task { IsValidTaskIn store.old task.now }
    requires formula { IsFormulaIn store.old (task_at store.old task.now) formula }
    ensures held { IfOk result (Holds store.new) }
    ensures tree { IfOk result (λ id. tree_at store.new id
        ≡ image (R.rule rule.now (task_at store.old task.now)) (tree_at store.old formula)) }
    ensures fault { IfErr result (IsLimitFault (IsLarge
        (image (R.rule rule.now (task_at store.old task.now)) (tree_at store.old formula)))) }
    ensures grows { Grows store.old store.new }
{
    let at = RuleAt { rule, task };
    let made = image_tree(alloc, store, &at, formula)?;
    Ok(made)
}
