// A stage brought back: from derivations of the tasks that a task became, a derivation of the task.
// It depends on drafts and on the laws of a transformation; `lift` of the program depends on it.
ghost use Rattle.std.specs.Prelude.{◌≡◌, ◌<◌, ◌++◌, List, [], ◌∷◌, length, map, get_or, All, IfOk, IfSome, IfNone};
ghost use Rattle.trees.specs.Tree.{Tree};
ghost use Rattle.trees.specs.Node.{tree_at, Holds};
ghost use Rattle.tasks.specs.Task.{neg, start};
ghost use Rattle.tasks.specs.Meaning.{trees_at, task_at, tasks_at, TasksHeld};
ghost use Rattle.kernel.specs.Right.{IsRight, AreRight, Closes};
ghost use Rattle.rules.specs.Meaning.{rule_at, RuleHeld, step_at, steps_at, StepHeld, StepsHeld};
ghost use Rattle.evidence.specs.Drafts.{Extends, Refutes, IsFormulaAt, AreFormulas};
ghost use Rattle.evidence.specs.Facts.{citing, CitesNone, IsFact};
ghost use Rattle.evidence.specs.Stages.{Gives, IsOwnTask, InStage, StandFor, HasSequents, Cites, parts_at, PartsHeld, PartsClose};

use crate::by::{by_fact, keep_but, last_formula, negation};
use crate::{Draft, Transform};
use rules::{Rule, Step};
use std::alloc::{AllocError, Global};
use tasks::{Fact, Seq, Task};
use trees::TermId;

// The numbers of premises in a draft.
fn renumber_premises(
    alloc: Global,
    numbers: &[usize],
    premises: &[usize],
) -> Result<Seq<usize>, AllocError>
    requires { All (λ k. k < length numbers.now) premises.now }
    ensures { IfOk result (λ ps. ps ≡ map (λ k. get_or numbers.now k 0) premises.now) }
{
    let mut made = Vec::with_capacity(alloc, premises.len())?;
    for k in premises {
        made.push(numbers[*k])?;
    }
    Ok(Seq::from_vec(made))
}

// A step that cites no fact, as it is but for the numbers of its premises.
fn lift_other(step: &Step, premises: Seq<usize>, draft: &mut Draft) -> Result<usize, AllocError>
    requires held { StepHeld draft.old.trees step.now }
    requires right { IsRight draft.old.task draft.old.steps
        (record (step_at draft.old.trees step.now) { premises = premises }) }
    ensures refutes { IfOk result (λ k. Refutes draft.new k
        (trees_at draft.old.trees step.now.sequent)) }
    ensures grows { Extends draft.old draft.new }
{
    let sequent = step.sequent.clone()?;
    let rule = step.rule.clone()?;
    draft.push(Step {
        sequent,
        rule,
        premises,
    })
}

// What a rule cites: a fact by its name, and the types.
fn cited_fact(rule: &Rule) -> Option<(Fact, &[TermId])>
    ensures some { (s : List Tree) → IfSome result (λ p. rule_at s rule.now
        ≡ citing p.0 (trees_at s p.1.now)) }
    ensures none { (s : List Tree) → IfNone result (CitesNone (rule_at s rule.now)) }
    ensures held { (s : List Tree) → RuleHeld s rule.now
        → IfSome result (λ p. All (Holds s) p.1.now) }
{
    match rule {
        Rule::Fact(k, types) => Some((Fact::Proposition(*k), types.as_slice())),
        Rule::Def(k, types) => Some((Fact::Equation(*k), types.as_slice())),
        Rule::Clause(k, c, types) => Some((Fact::Clause(*k, *c), types.as_slice())),
        Rule::Inv(k, types) => Some((Fact::Inversion(*k), types.as_slice())),
        _ => None,
    }
}

// A step by a fact that is proved: a cut on the fact, whose second premise keeps its negation alone.
fn cut_on(
    draft: &mut Draft,
    sequent: &[TermId],
    formula: TermId,
    with_fact: usize,
    lemma: usize,
) -> Result<usize, AllocError>
    requires sequent { AreFormulas draft.old sequent.now }
    requires formula { IsFormulaAt draft.old formula }
    requires taken { Refutes draft.old with_fact
        (trees_at draft.old.trees sequent.now ++ tree_at draft.old.trees formula ∷ []) }
    requires proved { Refutes draft.old lemma (neg (tree_at draft.old.trees formula) ∷ []) }
    ensures refutes { IfOk result (λ k. Refutes draft.new k
        (trees_at draft.old.trees sequent.now)) }
    ensures grows { Extends draft.old draft.new }
{
    let no_fact = negation(draft, formula)?;
    let without = keep_but(draft, &[], sequent, &[no_fact], lemma)?;
    draft.cut(sequent, formula, with_fact, without)
}

// A step whose sequent is the negation of a fact of a task, alone: the one that is remembered, or a new one.
fn lemma_for<T: Transform>(
    stage: &T,
    from: &Task,
    to: &Task,
    name: Fact,
    types: &[TermId],
    formula: TermId,
    draft: &mut Draft,
) -> Result<usize, AllocError>
    requires stage { InStage (T.equation stage.now) draft.old from.now to.now }
    requires types_held { All (Holds draft.old.trees) types.now }
    requires formula { IsFormulaAt draft.old formula }
    requires fact { IsFact draft.old.task (task_at draft.old.trees to.now) name
        (trees_at draft.old.trees types.now) (tree_at draft.old.trees formula) }
    ensures refutes { IfOk result (λ k. Refutes draft.new k
        (neg (tree_at draft.old.trees formula) ∷ [])) }
    ensures grows { Extends draft.old draft.new }
{
    match draft.lemma_of(formula) {
        Some(lemma) => Ok(lemma),
        None => {
            let lemma = stage.fact(from, to, name, types, formula, draft)?;
            draft.remember_lemma(formula, lemma)?;
            Ok(lemma)
        }
    }
}

// By which name and at which types a step of the draft cites a formula; none where it doesn't.
fn own_fact(
    draft: &Draft,
    step: usize,
    formula: TermId,
) -> Result<Option<(Fact, Seq<TermId>)>, AllocError>
    requires { step < length draft.now.steps }
    ensures fact { IfOk result (λ o. IfSome o (λ p. IsFact draft.now.task draft.now.task p.0
        (trees_at draft.now.trees p.1) (tree_at draft.now.trees formula))) }
    ensures held { IfOk result (λ o. IfSome o (λ p. All (Holds draft.now.trees) p.1)) }
{
    let citing = &draft.steps()[step];
    let Some((name, types)) = cited_fact(&citing.rule) else {
        return Ok(None);
    };
    let cited = last_formula(draft, citing.premises.as_slice()[0]);
    if cited.0 != formula.0 {
        return Ok(None);
    }
    let types = Seq::from_slice(draft.allocator(), types)?;
    Ok(Some((name, types)))
}

// A step by a formula of which a step is a lemma: it cites the formula as the lemma does, or else it is cut on.
fn cite_or_cut(
    draft: &mut Draft,
    sequent: &[TermId],
    formula: TermId,
    with_fact: usize,
    lemma: usize,
) -> Result<usize, AllocError>
    requires sequent { AreFormulas draft.old sequent.now }
    requires formula { IsFormulaAt draft.old formula }
    requires taken { Refutes draft.old with_fact
        (trees_at draft.old.trees sequent.now ++ tree_at draft.old.trees formula ∷ []) }
    requires proved { Refutes draft.old lemma (neg (tree_at draft.old.trees formula) ∷ []) }
    ensures refutes { IfOk result (λ k. Refutes draft.new k
        (trees_at draft.old.trees sequent.now)) }
    ensures grows { Extends draft.old draft.new }
{
    match own_fact(draft, lemma, formula)? {
        Some((name, types)) => {
            by_fact(
                draft,
                &[],
                sequent,
                name,
                types.as_slice(),
                formula,
                with_fact,
            )
        }
        None => cut_on(draft, sequent, formula, with_fact, lemma),
    }
}

// A step that cites a fact of a task, in a draft of the task that it was made from.
fn lift_cited<T: Transform>(
    stage: &T,
    from: &Task,
    to: &Task,
    sequent: &[TermId],
    name: Fact,
    types: &[TermId],
    with_fact: usize,
    draft: &mut Draft,
) -> Result<usize, AllocError>
    requires stage { InStage (T.equation stage.now) draft.old from.now to.now }
    requires sequent { AreFormulas draft.old sequent.now }
    requires types_held { All (Holds draft.old.trees) types.now }
    requires cites { Cites draft.old (task_at draft.old.trees to.now)
        (trees_at draft.old.trees sequent.now) name (trees_at draft.old.trees types.now) with_fact }
    ensures refutes { IfOk result (λ k. Refutes draft.new k
        (trees_at draft.old.trees sequent.now)) }
    ensures grows { Extends draft.old draft.new }
{
    let formula = last_formula(draft, with_fact);
    let lemma = lemma_for(stage, from, to, name, types, formula, draft)?;
    cite_or_cut(draft, sequent, formula, with_fact, lemma)
}

// A step of a task, in a draft of the task that it was made from.
fn lift_step<T: Transform>(
    stage: &T,
    from: &Task,
    to: &Task,
    before: &[Step],
    numbers: &[usize],
    step: &Step,
    draft: &mut Draft,
) -> Result<usize, AllocError>
    requires stage { InStage (T.equation stage.now) draft.old from.now to.now }
    requires held { StepHeld draft.old.trees step.now }
    requires right { IsRight (task_at draft.old.trees to.now)
        (steps_at draft.old.trees before.now) (step_at draft.old.trees step.now) }
    requires numbers { StandFor draft.old numbers.now (steps_at draft.old.trees before.now) }
    ensures refutes { IfOk result (λ k. Refutes draft.new k
        (trees_at draft.old.trees step.now.sequent)) }
    ensures grows { Extends draft.old draft.new }
{
    let premises = renumber_premises(draft.allocator(), numbers, step.premises.as_slice())?;
    match cited_fact(&step.rule) {
        Some((name, types)) => {
            let sequent = step.sequent.as_slice();
            let with_fact = premises.as_slice()[0];
            lift_cited(stage, from, to, sequent, name, types, with_fact, draft)
        }
        None => lift_other(step, premises, draft),
    }
}

// The steps of a task, in a draft of the task that it was made from.
fn lift_part<T: Transform>(
    stage: &T,
    from: &Task,
    to: &Task,
    part: &[Step],
    draft: &mut Draft,
) -> Result<Vec<usize>, AllocError>
    requires stage { InStage (T.equation stage.now) draft.old from.now to.now }
    requires held { StepsHeld draft.old.trees part.now }
    requires right { AreRight (task_at draft.old.trees to.now) (steps_at draft.old.trees part.now) }
    ensures numbers { IfOk result (λ v. StandFor draft.new v.items
        (steps_at draft.old.trees part.now)) }
    ensures grows { Extends draft.old draft.new }
{
    let mut numbers: Vec<usize> = Vec::new(draft.allocator());
    for j in 0..part.len() {
        let number = lift_step(stage, from, to, &part[..j], &numbers, &part[j], draft)?;
        numbers.push(number)?;
    }
    Ok(numbers)
}

// The steps of a task, of which the last one has its start.
fn lift_end<T: Transform>(
    stage: &T,
    from: &Task,
    to: &Task,
    part: &[Step],
    draft: &mut Draft,
) -> Result<usize, AllocError>
    requires stage { InStage (T.equation stage.now) draft.old from.now to.now }
    requires held { StepsHeld draft.old.trees part.now }
    requires closes { Closes (task_at draft.old.trees to.now) (steps_at draft.old.trees part.now) }
    ensures refutes { IfOk result (λ k. Refutes draft.new k
        (start (task_at draft.old.trees to.now))) }
    ensures sequents { IfOk result (λ _. HasSequents draft.new
        (steps_at draft.old.trees part.now)) }
    ensures grows { Extends draft.old draft.new }
{
    let numbers = lift_part(stage, from, to, part, draft)?;
    Ok(numbers[part.len() - 1])
}

/// From steps that derive each of the tasks that the draft's task becomes, a step whose sequent is the start of the
/// draft's task. The draft then has, for each of those steps, a step with its sequent. After a refusal the draft has
/// further right steps.
pub fn lift_stage<T: Transform>(
    stage: &T,
    from: &Task,
    to: &Vec<Task>,
    parts: &[Seq<Step>],
    draft: &mut Draft,
) -> Result<usize, AllocError>
    requires own { IsOwnTask draft.old from.now }
    requires to_held { TasksHeld draft.old.trees to.now.items }
    requires gives { Gives (T.equation stage.now) draft.old.task
        (tasks_at draft.old.trees to.now.items) }
    requires parts_held { PartsHeld draft.old.trees parts.now }
    requires close { PartsClose (tasks_at draft.old.trees to.now.items)
        (parts_at draft.old.trees parts.now) }
    ensures refutes { IfOk result (λ k. Refutes draft.new k (start draft.old.task)) }
    ensures sequents { IfOk result (λ _. All (HasSequents draft.new)
        (parts_at draft.old.trees parts.now)) }
    ensures grows { Extends draft.old draft.new }
{
    let mut ends: Vec<usize> = Vec::new(draft.allocator());
    for i in 0..to.len() {
        let end = lift_end(stage, from, &to[i], parts[i].as_slice(), draft)?;
        ends.push(end)?;
    }
    stage.glue(from, to, &ends, draft)
}
