// Steps by each rule, over steps that refute what the rule adds. A sequent is written in two parts: some formulas, the front,
// and a tail after them, in which the rule has its places.
// They depend on drafts; lifting and the transformations put their steps by them.
ghost use Rattle.std.specs.Prelude.{◌≡◌, ◌+◌, ◌++◌, ◌<◌, ◌≤◌, List, [], ◌∷◌, length, slice_get, All, IfOk, OnOk};
ghost use Rattle.trees.specs.Tree.{Tree};
ghost use Rattle.trees.specs.Node.{tree_at, Holds};
ghost use Rattle.tasks.specs.Task.{neg, start};
ghost use Rattle.tasks.specs.Meaning.{trees_at};
ghost use Rattle.kernel.specs.Right.{last_starts};
ghost use Rattle.rules.specs.Forms.{negated};
ghost use Rattle.rules.specs.Meaning.{rule_at, RuleHeld};
ghost use Rattle.evidence.specs.Drafts.{Extends, AddsTrees, Refutes, HasLast, IsFormulaAt, AreFormulas};
ghost use Rattle.evidence.specs.Facts.{citing, IsFact};
ghost use Rattle.evidence.specs.Rules.{NamesOwn, RefuteAdded, RefuteHolding, RefuteFailing};
ghost use Rattle.evidence.specs.Rules.{Clash, holding_rule, failing_rule, counted};

use crate::Draft;
use rules::{Rule, Step};
use std::alloc::{AllocError, Global};
use tasks::{Fact, Seq};
use trees::store::Grow;
use trees::{Node, Op, TermId};

/// The tail after the front.
pub fn join_lists(
    alloc: Global,
    front: &[TermId],
    tail: &[TermId],
) -> Result<Vec<TermId>, AllocError>
    ensures { IfOk result (λ v. v.items ≡ front.now ++ tail.now) }
{
    let mut all = Vec::from_slice(alloc, front)?;
    all.extend_from_slice(tail)?;
    Ok(all)
}

/// The last formula of a step.
pub fn last_formula(draft: &Draft, step: usize) -> TermId
    requires { HasLast draft.now step }
    ensures formula { IsFormulaAt draft.now result }
    ensures is { (front : List Tree) (last : Tree) → Refutes draft.now step (front ++ last ∷ [])
        → tree_at draft.now.trees result ≡ last }
{
    let sequent = draft.steps()[step].sequent.as_slice();
    sequent[sequent.len() - 1]
}

/// The negation of a formula.
pub fn negation(draft: &mut Draft, formula: TermId) -> Result<TermId, AllocError>
    requires { IsFormulaAt draft.old formula }
    ensures formula { IfOk result (IsFormulaAt draft.new) }
    ensures tree { IfOk result (λ id. tree_at draft.new.trees id
        ≡ neg (tree_at draft.old.trees formula)) }
    ensures grows { AddsTrees draft.old draft.new }
{
    draft.add(Node::Not(formula))
}

/// Puts a step at the end whose sequent is the front and the tail, by any rule whose premises refute what it adds.
pub fn by_rule(
    draft: &mut Draft,
    front: &[TermId],
    tail: &[TermId],
    rule: Rule,
    premises: &[usize],
) -> Result<usize, AllocError>
    requires front { AreFormulas draft.old front.now }
    requires tail { AreFormulas draft.old tail.now }
    requires held { RuleHeld draft.old.trees rule }
    requires names { NamesOwn draft.old.task (rule_at draft.old.trees rule) }
    requires added { RefuteAdded draft.old
        (trees_at draft.old.trees front.now ++ trees_at draft.old.trees tail.now)
        (rule_at draft.old.trees rule) premises.now }
    ensures refutes { IfOk result (λ k. Refutes draft.new k
        (trees_at draft.old.trees front.now ++ trees_at draft.old.trees tail.now)) }
    ensures last { IfOk result (λ k. length draft.new.steps ≡ k + 1) }
    ensures grows { Extends draft.old draft.new }
{
    let alloc = draft.allocator();
    let sequent = Seq::from_vec(join_lists(alloc, front, tail)?);
    let premises = Seq::from_slice(alloc, premises)?;
    draft.push(Step {
        sequent,
        rule,
        premises,
    })
}

/// A formula of the tail and its negation, by their places there.
pub fn by_clash(
    draft: &mut Draft,
    front: &[TermId],
    tail: &[TermId],
    formula: usize,
    negation: usize,
) -> Result<usize, AllocError>
    requires front { AreFormulas draft.old front.now }
    requires tail { AreFormulas draft.old tail.now }
    requires formula { formula < length tail.now }
    requires negation { negation < length tail.now }
    requires clash { Clash (trees_at draft.old.trees tail.now) formula negation }
    ensures refutes { IfOk result (λ k. Refutes draft.new k
        (trees_at draft.old.trees front.now ++ trees_at draft.old.trees tail.now)) }
    ensures grows { Extends draft.old draft.new }
{
    let from = front.len();
    let rule = Rule::Clash(from + formula, from + negation);
    by_rule(draft, front, tail, rule, &[])
}

/// The rule that takes a connective at a place apart.
pub fn holding_rule(op: Op, place: usize) -> Rule
    ensures tree { (s : List Tree) → rule_at s result ≡ holding_rule op place }
    ensures held { (s : List Tree) → RuleHeld s result }
{
    match op {
        Op::And => Rule::And(place),
        Op::AndThen => Rule::AndThen(place),
        Op::Or => Rule::Or(place),
        Op::OrElse => Rule::OrElse(place),
        Op::Imp => Rule::Imp(place),
        Op::Iff => Rule::Iff(place),
    }
}

/// The rule that takes the negation of a connective at a place apart.
pub fn failing_rule(op: Op, place: usize) -> Rule
    ensures tree { (s : List Tree) → rule_at s result ≡ failing_rule op place }
    ensures held { (s : List Tree) → RuleHeld s result }
{
    match op {
        Op::And => Rule::NotAnd(place),
        Op::AndThen => Rule::NotAndThen(place),
        Op::Or => Rule::NotOr(place),
        Op::OrElse => Rule::NotOrElse(place),
        Op::Imp => Rule::NotImp(place),
        Op::Iff => Rule::NotIff(place),
    }
}

/// Two formulas of the tail's formula at a place, which a connective joins: `and`, `andthen`, `or`, `orelse`, `imp`, `iff`.
pub fn by_holding(
    draft: &mut Draft,
    front: &[TermId],
    tail: &[TermId],
    op: Op,
    place: usize,
    premises: &[usize],
) -> Result<usize, AllocError>
    requires front { AreFormulas draft.old front.now }
    requires tail { AreFormulas draft.old tail.now }
    requires within { place < length tail.now }
    requires joined { RefuteHolding draft.old
        (trees_at draft.old.trees front.now ++ trees_at draft.old.trees tail.now) op
        (slice_get (trees_at draft.old.trees tail.now) place) premises.now }
    ensures refutes { IfOk result (λ k. Refutes draft.new k
        (trees_at draft.old.trees front.now ++ trees_at draft.old.trees tail.now)) }
    ensures grows { Extends draft.old draft.new }
{
    let rule = holding_rule(op, front.len() + place);
    by_rule(draft, front, tail, rule, premises)
}

/// Two formulas that a connective joins, where the tail's formula at a place is the negation of that: `notand`, `notandthen`,
/// `notor`, `notorelse`, `notimp`, `notiff`.
pub fn by_failing(
    draft: &mut Draft,
    front: &[TermId],
    tail: &[TermId],
    op: Op,
    place: usize,
    premises: &[usize],
) -> Result<usize, AllocError>
    requires front { AreFormulas draft.old front.now }
    requires tail { AreFormulas draft.old tail.now }
    requires within { place < length tail.now }
    requires joined { RefuteFailing draft.old
        (trees_at draft.old.trees front.now ++ trees_at draft.old.trees tail.now) op
        (negated (slice_get (trees_at draft.old.trees tail.now) place)) premises.now }
    ensures refutes { IfOk result (λ k. Refutes draft.new k
        (trees_at draft.old.trees front.now ++ trees_at draft.old.trees tail.now)) }
    ensures grows { Extends draft.old draft.new }
{
    let rule = failing_rule(op, front.len() + place);
    by_rule(draft, front, tail, rule, premises)
}

// Adds so many numbers from this one on.
fn count_on(places: &mut Vec<usize>, from: usize, many: usize) -> Result<(), AllocError>
    requires { from + many ≤ usize.MAX }
    ensures { OnOk result (places.new.items ≡ places.old.items ++ counted from many) }
{
    for i in 0..many {
        places.push(from + i)?;
    }
    Ok(())
}

/// From a step whose sequent is the front and the last, one with the middle between them.
pub fn keep_but(
    draft: &mut Draft,
    front: &[TermId],
    middle: &[TermId],
    last: &[TermId],
    step: usize,
) -> Result<usize, AllocError>
    requires front { AreFormulas draft.old front.now }
    requires middle { AreFormulas draft.old middle.now }
    requires last { AreFormulas draft.old last.now }
    requires step { Refutes draft.old step
        (trees_at draft.old.trees front.now ++ trees_at draft.old.trees last.now) }
    ensures refutes { IfOk result (λ k. Refutes draft.new k
        (trees_at draft.old.trees front.now ++ (trees_at draft.old.trees middle.now
        ++ trees_at draft.old.trees last.now))) }
    ensures last { IfOk result (λ k. length draft.new.steps ≡ k + 1) }
    ensures grows { Extends draft.old draft.new }
{
    let alloc = draft.allocator();
    let mut places = Vec::new(alloc);
    count_on(&mut places, 0, front.len())?;
    count_on(&mut places, front.len() + middle.len(), last.len())?;
    let tail = join_lists(alloc, middle, last)?;
    let sequent = join_lists(alloc, front, &tail)?;
    draft.keep(&sequent, &places, step)
}

// The rule that cites a fact.
fn citation(name: Fact, types: Seq<TermId>) -> Rule
    ensures tree { (s : List Tree) → rule_at s result ≡ citing name (trees_at s types) }
    ensures held { (s : List Tree) → All (Holds s) types → RuleHeld s result }
{
    match name {
        Fact::Proposition(k) => Rule::Fact(k, types),
        Fact::Equation(k) => Rule::Def(k, types),
        Fact::Clause(k, c) => Rule::Clause(k, c, types),
        Fact::Inversion(k) => Rule::Inv(k, types),
    }
}

/// A fact of the draft's task at types, by its name: the premise refutes the sequent with the fact after it.
pub fn by_fact(
    draft: &mut Draft,
    front: &[TermId],
    tail: &[TermId],
    name: Fact,
    types: &[TermId],
    formula: TermId,
    premise: usize,
) -> Result<usize, AllocError>
    requires front { AreFormulas draft.old front.now }
    requires tail { AreFormulas draft.old tail.now }
    requires types_held { All (Holds draft.old.trees) types.now }
    requires fact { IsFact draft.old.task draft.old.task name
        (trees_at draft.old.trees types.now) (tree_at draft.old.trees formula) }
    requires premise { Refutes draft.old premise
        ((trees_at draft.old.trees front.now ++ trees_at draft.old.trees tail.now)
        ++ tree_at draft.old.trees formula ∷ []) }
    ensures refutes { IfOk result (λ k. Refutes draft.new k
        (trees_at draft.old.trees front.now ++ trees_at draft.old.trees tail.now)) }
    ensures grows { Extends draft.old draft.new }
{
    let _ = formula;
    let list = Seq::from_slice(draft.allocator(), types)?;
    let rule = citation(name, list);
    by_rule(draft, front, tail, rule, &[premise])
}

/// A step whose sequent is the negation of a fact of the draft's task at types, alone.
pub fn fact_lemma(
    draft: &mut Draft,
    name: Fact,
    types: &[TermId],
    formula: TermId,
) -> Result<usize, AllocError>
    requires types_held { All (Holds draft.old.trees) types.now }
    requires formula { IsFormulaAt draft.old formula }
    requires fact { IsFact draft.old.task draft.old.task name
        (trees_at draft.old.trees types.now) (tree_at draft.old.trees formula) }
    ensures refutes { IfOk result (λ k. Refutes draft.new k
        (neg (tree_at draft.old.trees formula) ∷ [])) }
    ensures grows { Extends draft.old draft.new }
{
    let no_fact = negation(draft, formula)?;
    let clash = by_clash(draft, &[], &[no_fact, formula], 1, 0)?;
    by_fact(draft, &[], &[no_fact], name, types, formula, clash)
}

/// Puts a step that keeps the whole sequent of this one, the task's start, after the others, where it isn't the last one.
pub fn finish(draft: &mut Draft, number: usize) -> Result<(), AllocError>
    requires start { Refutes draft.old number (start draft.old.task) }
    ensures starts { IfOk result (λ _. last_starts draft.new.task draft.new.steps) }
    ensures grows { Extends draft.old draft.new }
{
    let steps = draft.steps();
    if number + 1 == steps.len() {
        return Ok(());
    }
    let sequent = steps[number].sequent.clone()?;
    let kept = keep_but(draft, sequent.as_slice(), &[], &[], number)?;
    let _ = kept;
    Ok(())
}
