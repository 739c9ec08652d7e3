// Whether the trees of a step are typed as far as they go, and whether such trees are formulas, terms and types of the task.
// It depends on typing; the checker of a step depends on it.
ghost use Rattle.std.specs.Prelude.{◌≡◌, ◌↔◌, ◌⊎◌, All, IsTrue};
ghost use Rattle.trees.specs.Node.{tree_at, Holds};
ghost use Rattle.trees.specs.Facts.{Each};
ghost use Rattle.tasks.specs.Meaning.{task_at, trees_at, TaskHeld};
ghost use Rattle.tasks.specs.Open.{OpenTyped};
ghost use Rattle.tasks.specs.Valid.{IsGroundFormula, IsTypeOver};
ghost use Rattle.tasks.specs.typed_trees.Named.{vocabulary_at, VocabularyHeld};
ghost use Rattle.rules.specs.Trees.{rule_trees};
ghost use Rattle.rules.specs.Meaning.{rule_at, RuleHeld, StepHeld};
ghost use Rattle.kernel.specs.Right.{IsGroundExpression};
ghost use Rattle.kernel.specs.Open.{OpenIn, IsOpen, IsComplete, StepIsOpen, TemplateIsOpen};

use rules::{Rule, Step};
use tasks::typed_trees::{Vocabulary, is_ground, is_open_typed};
use tasks::{Lookup, Task};
use trees::store::Store;
use trees::{Parts, Sort, TermId};

// Whether a tree is typed as far as it goes.
fn is_open(store: &Store, v: &Vocabulary<'_>, e: TermId) -> bool
    requires v_held { VocabularyHeld store.now v.now }
    requires held { Holds store.now e }
    ensures { IsTrue result ↔ OpenTyped (vocabulary_at store.now v.now) (tree_at store.now e) }
{
    match store.node(e).parts() {
        Parts::None => is_open_typed(store, v, e),
        Parts::One(a) => is_open(store, v, a) && is_open_typed(store, v, e),
        Parts::Two(a, b) => is_open(store, v, a)
            && is_open(store, v, b)
            && is_open_typed(store, v, e),
        Parts::Three(a, b, c) => is_open(store, v, a)
            && is_open(store, v, b)
            && is_open(store, v, c)
            && is_open_typed(store, v, e),
    }
}

// Whether a tree is so in a task.
fn is_open_in(store: &Store, task: &Task, e: TermId) -> bool
    requires task_held { TaskHeld store.now task.now }
    requires held { Holds store.now e }
    ensures { IsTrue result ↔ OpenIn (task_at store.now task.now) (tree_at store.now e) }
{
    let look = Lookup::without_index(task);
    is_open(store, &Vocabulary::OfTask(&look), e)
}

// Whether each tree is so.
fn are_open(store: &Store, task: &Task, ids: &[TermId]) -> bool
    requires task_held { TaskHeld store.now task.now }
    requires held { All (Holds store.now) ids.now }
    ensures { IsTrue result ↔ All (IsOpen (task_at store.now task.now) store.now) ids.now }
{
    for id in ids {
        if !is_open_in(store, task, *id) {
            return false;
        }
    }
    true
}

// Whether the terms and formulas that a rule names are so.
fn names_open(store: &Store, task: &Task, rule: &Rule) -> bool
    requires task_held { TaskHeld store.now task.now }
    requires held { RuleHeld store.now rule.now }
    ensures { IsTrue result ↔ Each (OpenIn (task_at store.now task.now))
        (rule_trees (rule_at store.now rule.now)) }
{
    match rule {
        Rule::Forall(_, e) | Rule::NotExists(_, e) => is_open_in(store, task, *e),
        Rule::Cut(e) | Rule::Refl(e) | Rule::LetDef(e) | Rule::IfDef(e) => {
            is_open_in(store, task, *e)
        },
        Rule::MatchDef(e) | Rule::Case(e) | Rule::Project(e) => is_open_in(store, task, *e),
        Rule::Bound(e, _) => is_open_in(store, task, *e),
        Rule::Trichotomy(a, b) => is_open_in(store, task, *a) && is_open_in(store, task, *b),
        _ => true,
    }
}

// Whether the template of a replacement is so.
fn template_is_open(store: &Store, task: &Task, rule: &Rule) -> bool
    requires task_held { TaskHeld store.now task.now }
    requires held { RuleHeld store.now rule.now }
    ensures { IsTrue result ↔ TemplateIsOpen (task_at store.now task.now)
        (rule_at store.now rule.now) }
{
    match rule {
        Rule::Replace(_, _, e) => is_open_in(store, task, *e),
        _ => true,
    }
}

// Whether all trees of a step are typed as far as they go.
#[tactic(auto, using(crate::proofs::Complete::types_held))]
pub(crate) fn step_is_open(store: &Store, task: &Task, step: &Step) -> bool
    requires task_held { TaskHeld store.now task.now }
    requires step_held { StepHeld store.now step.now }
    ensures { IsTrue result ↔ StepIsOpen (task_at store.now task.now) store.now step.now }
{
    if !are_open(store, task, step.sequent.as_slice()) {
        return false;
    }
    if !names_open(store, task, &step.rule) {
        return false;
    }
    if !template_is_open(store, task, &step.rule) {
        return false;
    }
    are_open(store, task, step.rule.types())
}

// Whether a tree that is typed as far as it goes is well typed and free of schematic types.
#[tactic(auto, using(crate::proofs::Complete::open_closed))]
fn is_complete(store: &Store, task: &Task, e: TermId) -> bool
    requires held { Holds store.now e }
    requires open { OpenIn (task_at store.now task.now) (tree_at store.now e) }
    ensures { IsTrue result ↔ IsComplete (task_at store.now task.now) (tree_at store.now e) }
{
    let _ = task;
    store.loose(e) == 0 && is_ground(store, e)
}

// Whether it is a formula that may be in a sequent.
#[tactic(auto, using(crate::proofs::Complete::sentence))]
fn is_sentence(store: &Store, task: &Task, e: TermId) -> bool
    requires held { Holds store.now e }
    requires open { OpenIn (task_at store.now task.now) (tree_at store.now e) }
    ensures { IsTrue result ↔ IsGroundFormula (task_at store.now task.now) (tree_at store.now e) }
{
    store.sort(e) == Sort::Formula && is_complete(store, task, e)
}

// Whether it is a type that a rule may name.
#[tactic(auto, using(crate::proofs::Complete::type_over))]
fn is_type(store: &Store, task: &Task, e: TermId) -> bool
    requires held { Holds store.now e }
    requires open { OpenIn (task_at store.now task.now) (tree_at store.now e) }
    ensures { IsTrue result ↔ IsTypeOver (task_at store.now task.now) 0 (tree_at store.now e) }
{
    store.sort(e) == Sort::Kind && is_complete(store, task, e)
}

// Whether it is the sort of terms or of formulas.
fn is_value(sort: Sort) -> bool
    ensures { IsTrue result ↔ ((sort ≡ Sort.Term) ⊎ (sort ≡ Sort.Formula)) }
{
    match sort {
        Sort::Term | Sort::Formula => true,
        _ => false,
    }
}

// Whether it is a term or a formula that a rule may name.
#[tactic(auto, using(crate::proofs::Complete::expression))]
fn is_expression(store: &Store, task: &Task, e: TermId) -> bool
    requires held { Holds store.now e }
    requires open { OpenIn (task_at store.now task.now) (tree_at store.now e) }
    ensures { IsTrue result ↔ IsGroundExpression (task_at store.now task.now)
        (tree_at store.now e) }
{
    is_value(store.sort(e)) && is_complete(store, task, e)
}

// Whether each formula of a sequent may be there.
pub(crate) fn are_sentences(store: &Store, task: &Task, sequent: &[TermId]) -> bool
    requires held { All (Holds store.now) sequent.now }
    requires open { All (IsOpen (task_at store.now task.now) store.now) sequent.now }
    ensures { IsTrue result ↔ All (IsGroundFormula (task_at store.now task.now))
        (trees_at store.now sequent.now) }
{
    for formula in sequent {
        if !is_sentence(store, task, *formula) {
            return false;
        }
    }
    true
}

// Whether each type may be named.
pub(crate) fn are_types(store: &Store, task: &Task, types: &[TermId]) -> bool
    requires held { All (Holds store.now) types.now }
    requires open { All (IsOpen (task_at store.now task.now) store.now) types.now }
    ensures { IsTrue result ↔ All (IsTypeOver (task_at store.now task.now) 0)
        (trees_at store.now types.now) }
{
    for ty in types {
        if !is_type(store, task, *ty) {
            return false;
        }
    }
    true
}

// Whether the terms and formulas that a rule names are those of the task.
pub(crate) fn names_right(store: &Store, task: &Task, rule: &Rule) -> bool
    requires held { RuleHeld store.now rule.now }
    requires trees { Each (OpenIn (task_at store.now task.now))
        (rule_trees (rule_at store.now rule.now)) }
    ensures { IsTrue result ↔ Each (IsGroundExpression (task_at store.now task.now))
        (rule_trees (rule_at store.now rule.now)) }
{
    match rule {
        Rule::Forall(_, e) | Rule::NotExists(_, e) => is_expression(store, task, *e),
        Rule::Cut(e) | Rule::Refl(e) | Rule::LetDef(e) | Rule::IfDef(e) => {
            is_expression(store, task, *e)
        },
        Rule::MatchDef(e) | Rule::Case(e) | Rule::Project(e) => is_expression(store, task, *e),
        Rule::Bound(e, _) => is_expression(store, task, *e),
        Rule::Trichotomy(a, b) => is_expression(store, task, *a) && is_expression(store, task, *b),
        _ => true,
    }
}
