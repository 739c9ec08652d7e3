// Whether what every rule asks of a step holds: its formulas, what its rule names, and its premises.
// It depends on typing; the test of a step depends on it.
ghost use Rattle.std.specs.Prelude.{◌≡◌, ◌<◌, [], length, All, IsTrue};
ghost use Rattle.tasks.specs.trees.Node.{tree_at, Holds};
ghost use Rattle.tasks.specs.trees.Facts.{Each};
ghost use Rattle.tasks.specs.Meaning.{task_at, trees_at};
ghost use Rattle.tasks.specs.Valid.{IsGroundFormula};
ghost use Rattle.rules.specs.Trees.{rule_trees};
ghost use Rattle.rules.specs.Meaning.{rule_at, types_in, RuleHeld};
ghost use Rattle.kernel.specs.Right.{IsGroundExpression};
ghost use Rattle.kernel.specs.Open.{OpenIn, IsOpen, IsComplete};

use rules::Rule;
use tasks::typed_trees::is_ground;
use tasks::{Sort, Store, Task, TermId};

// Whether a tree that is typed as far as it goes is well typed and free of schematic types.
fn is_complete(store: &Store, task: &Task, e: TermId) -> bool
    requires held { Holds store.now e }
    requires open { OpenIn (task_at store.now task.now) (tree_at store.now e) }
    ensures { IsTrue result → IsComplete (task_at store.now task.now) (tree_at store.now e) }
{
    let _ = task;
    store.loose(e) == 0 && is_ground(store, e)
}

// Whether it is a formula that may be in a sequent.
#[tactic(auto, using(kernel::proofs::Complete::sentence))]
fn is_sentence(store: &Store, task: &Task, e: TermId) -> bool
    requires held { Holds store.now e }
    requires open { OpenIn (task_at store.now task.now) (tree_at store.now e) }
    ensures { IsTrue result → IsGroundFormula (task_at store.now task.now) (tree_at store.now e) }
{
    store.sort(e) == Sort::Formula && is_complete(store, task, e)
}

// Whether it is a term or a formula that a rule may name.
#[tactic(auto, using(kernel::proofs::Complete::expression))]
fn is_expression(store: &Store, task: &Task, e: TermId) -> bool
    requires held { Holds store.now e }
    requires open { OpenIn (task_at store.now task.now) (tree_at store.now e) }
    ensures { IsTrue result → IsGroundExpression (task_at store.now task.now)
        (tree_at store.now e) }
{
    match store.sort(e) {
        Sort::Term | Sort::Formula => is_complete(store, task, e),
        _ => false,
    }
}

/// Whether each formula of a sequent may be there.
pub(crate) fn are_sentences(store: &Store, task: &Task, sequent: &[TermId]) -> bool
    requires held { All (Holds store.now) sequent.now }
    requires open { All (IsOpen (task_at store.now task.now) store.now) sequent.now }
    ensures { IsTrue result → All (IsGroundFormula (task_at store.now task.now))
        (trees_at store.now sequent.now) }
{
    for formula in sequent {
        if !is_sentence(store, task, *formula) {
            return false;
        }
    }
    true
}

/// Whether the premises are earlier steps.
pub(crate) fn are_earlier(premises: &[usize], count: usize) -> bool
    ensures { IsTrue result → All (λ k. k < count) premises.now }
{
    for k in premises {
        if *k >= count {
            return false;
        }
    }
    true
}

/// Whether a rule has a quick row, and what it names may be named.
pub(crate) fn is_quick(store: &Store, task: &Task, rule: &Rule) -> bool
    requires held { RuleHeld store.now rule.now }
    requires trees { Each (OpenIn (task_at store.now task.now))
        (rule_trees (rule_at store.now rule.now)) }
    ensures trees { IsTrue result → Each (IsGroundExpression (task_at store.now task.now))
        (rule_trees (rule_at store.now rule.now)) }
    ensures types { IsTrue result → types_in rule.now ≡ [] }
{
    match rule {
        Rule::Forall(_, e) | Rule::NotExists(_, e) => is_expression(store, task, *e),
        Rule::NotForall(_, _) | Rule::Exists(_, _) => true,
        Rule::Replace(_, _, _) | Rule::Linear(_) => true,
        Rule::LetDef(e) | Rule::MatchDef(e) => is_expression(store, task, *e),
        _ => false,
    }
}
