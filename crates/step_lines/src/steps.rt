// The rule that words write, and the step of a line.
// They depend on arguments and on the words of rules; what a line makes depends on them.
ghost use Rattle.std.specs.Prelude.{◌≡◌, ◌++◌, All, IfOk, IfSome};
ghost use Rattle.std.specs.Option.{option_map};
ghost use Rattle.trees.specs.Node.{Holds, Grows};
ghost use Rattle.tasks.specs.Meaning.{task_at, trees_at};
ghost use Rattle.rules.specs.Meaning.{rule_at, step_at, RuleHeld, StepHeld};
ghost use Rattle.step_lines.specs.rule_words.Arguments.{arguments_at, ArgumentHeld};
ghost use Rattle.step_lines.specs.rule_words.Forms.{argument_kinds};
ghost use Rattle.step_lines.specs.rule_words.Rules.{rule_row};
ghost use Rattle.step_lines.specs.tree_lines.Words.{texts};
ghost use Rattle.step_lines.specs.tree_lines.Made.{KnownHeld, earlier_at};
ghost use Rattle.step_lines.specs.Steps.{rule_arguments, rule_named, rule_of_words, step_ended, step_of_line};

use crate::arguments::{types_of_first, word_arguments};
use crate::rule_words::{Argument, RuleName, kinds_of, name_of_word, rule_of};
use crate::tree_lines::{EarlierLines, things_at};
use crate::words::{colon, numbers};
use rules::{Rule, Step};
use std::alloc::{AllocError, Global};
use tasks::Seq;
use trees::store::{Store, TermId};

// Three lists of arguments as one.
fn join_arguments(
    mut all: Vec<Argument>,
    more: &[Argument],
    last: &[Argument],
) -> Result<Vec<Argument>, AllocError>
    ensures { IfOk result (λ v. v.items ≡ all.items ++ (more.now ++ last.now)) }
{
    all.extend_from_slice(more)?;
    all.extend_from_slice(last)?;
    Ok(all)
}

// The arguments of a rule.
fn all_arguments(
    alloc: Global,
    store: &mut Store,
    x: &EarlierLines<'_>,
    name: RuleName,
    words: &[&[u8]],
) -> Result<Option<Vec<Argument>>, AllocError>
    requires { KnownHeld store.old x.now }
    ensures trees { IfOk result (λ o. option_map (λ v. arguments_at store.new v.items) o
        ≡ rule_arguments (task_at store.old x.now.task.now) x.now.table.now
        (earlier_at store.old x.now) (argument_kinds (rule_row name).form) (texts words.now)) }
    ensures held { IfOk result (λ o. IfSome o (λ v. All (ArgumentHeld store.new) v.items)) }
    ensures grows { Grows store.old store.new }
{
    let kinds = kinds_of(name);
    let own = types_of_first(alloc, store, x, kinds.first, words)?;
    let count = kinds.first.len().min(words.len());
    let Some(first) = word_arguments(alloc, store, x, kinds.first, &[], &words[..count])? else {
        return Ok(None);
    };
    match word_arguments(alloc, store, x, &[], kinds.repeated, &words[count..])? {
        Some(rest) => Ok(Some(join_arguments(first, &own, &rest)?)),
        None => Ok(None),
    }
}

// The rule of a name, by the words after it.
fn rule_by_name(
    alloc: Global,
    store: &mut Store,
    x: &EarlierLines<'_>,
    name: RuleName,
    words: &[&[u8]],
) -> Result<Option<Rule>, AllocError>
    requires { KnownHeld store.old x.now }
    ensures rule { IfOk result (λ o. option_map (rule_at store.new) o
        ≡ rule_named (task_at store.old x.now.task.now) x.now.table.now
        (earlier_at store.old x.now) (texts words.now) name) }
    ensures held { IfOk result (λ o. IfSome o (RuleHeld store.new)) }
    ensures grows { Grows store.old store.new }
{
    match all_arguments(alloc, store, x, name, words)? {
        Some(all) => rule_of(alloc, store, name, &all),
        None => Ok(None),
    }
}

// The rule that words write.
fn words_rule(
    alloc: Global,
    store: &mut Store,
    x: &EarlierLines<'_>,
    words: &[&[u8]],
) -> Result<Option<Rule>, AllocError>
    requires { KnownHeld store.old x.now }
    ensures rule { IfOk result (λ o. option_map (rule_at store.new) o
        ≡ rule_of_words (task_at store.old x.now.task.now) x.now.table.now
        (earlier_at store.old x.now) (texts words.now)) }
    ensures held { IfOk result (λ o. IfSome o (RuleHeld store.new)) }
    ensures grows { Grows store.old store.new }
{
    let [word, rest @ ..] = words else {
        return Ok(None);
    };
    match name_of_word(word) {
        Some(name) => rule_by_name(alloc, store, x, name, rest),
        None => Ok(None),
    }
}

// The step of a sequent, by the words after the sequent's.
fn end_step(
    alloc: Global,
    store: &mut Store,
    x: &EarlierLines<'_>,
    sequent: Vec<TermId>,
    words: &[&[u8]],
) -> Result<Option<Step>, AllocError>
    requires known { KnownHeld store.old x.now }
    requires sequent { All (Holds store.old) sequent.items }
    ensures step { IfOk result (λ o. option_map (step_at store.new) o
        ≡ step_ended (task_at store.old x.now.task.now) x.now.table.now
        (earlier_at store.old x.now) (trees_at store.old sequent.items) (texts words.now)) }
    ensures held { IfOk result (λ o. IfSome o (StepHeld store.new)) }
    ensures grows { Grows store.old store.new }
{
    let Some(at) = colon(words) else {
        return Ok(None);
    };
    let Some(rule) = words_rule(alloc, store, x, &words[..at])? else {
        return Ok(None);
    };
    match numbers(alloc, &words[at + 1..])? {
        Some(premises) => Ok(Some(Step {
            sequent: Seq::from_vec(sequent),
            rule,
            premises: Seq::from_vec(premises),
        })),
        None => Ok(None),
    }
}

/// The step of a line `s`, by the words after that letter. Only want of memory refuses.
pub(crate) fn line_step(
    alloc: Global,
    store: &mut Store,
    x: &EarlierLines<'_>,
    words: &[&[u8]],
) -> Result<Option<Step>, AllocError>
    requires { KnownHeld store.old x.now }
    ensures step { IfOk result (λ o. option_map (step_at store.new) o
        ≡ step_of_line (task_at store.old x.now.task.now) x.now.table.now
        (earlier_at store.old x.now) (texts words.now)) }
    ensures held { IfOk result (λ o. IfSome o (StepHeld store.new)) }
    ensures grows { Grows store.old store.new }
{
    let Some(at) = colon(words) else {
        return Ok(None);
    };
    match things_at(alloc, store, x.expressions, &words[..at])? {
        Some(sequent) => end_step(alloc, store, x, sequent, &words[at + 1..]),
        None => Ok(None),
    }
}
