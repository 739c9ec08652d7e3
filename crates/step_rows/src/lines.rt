// What a line makes, as text, and whether a step is right.
// It depends on the lines of steps and on the kernel; the answers depend on it.
ghost use Rattle.std.specs.Prelude.{IfOk, IfSome, OnOk};
ghost use Rattle.tasks.specs.trees.Node.{Grows};
ghost use Rattle.tasks.specs.Meaning.{TaskHeld};
ghost use Rattle.rules.specs.Meaning.{StepHeld, StepsHeld};
ghost use Rattle.step_lines.specs.tree_lines.Made.{IsNamesOf};
ghost use Rattle.step_lines.specs.Made.{ThingHeld};
ghost use Rattle.step_rows.specs.Read.{RowReadHeld};

use crate::read::{Read, keep};
use row_texts::{put_number, put_tree, put_trees};
use rules::{Rule, Step};
use std::alloc::{AllocError, Global};
use step_lines::tree_lines::{EarlierLines, TableNames};
use step_lines::{MadeThing, integer_word, made_by_line};
use step_writing::{Argument, NameEntry, right_step, word_of, written_rule};
use tasks::{Store, Task};

// An argument of a rule: the letter of its kind, and its number or its tree.
fn put_argument(
    alloc: Global,
    text: &mut String,
    store: &Store,
    argument: Argument,
) -> Result<(), AllocError> {
    match argument {
        Argument::Number(n) => {
            text.push_str(" n")?;
            put_number(alloc, text, n)
        }
        Argument::Symbol(k) => {
            text.push_str(" s")?;
            put_number(alloc, text, k)
        }
        Argument::Integer(n) => {
            text.push_str(" i")?;
            let digits = integer_word(alloc, n)?;
            text.push_str(digits.as_str())
        }
        Argument::Expression(e) => {
            text.push_str(" e")?;
            put_tree(alloc, text, store, &[], e)
        }
        Argument::Type(y) => {
            text.push_str(" t")?;
            put_tree(alloc, text, store, &[], y)
        }
    }
}

// A rule by its word, with its arguments.
fn put_rule(
    alloc: Global,
    text: &mut String,
    store: &Store,
    rule: &Rule,
) -> Result<(), AllocError> {
    let written = written_rule(alloc, rule)?;
    text.push_str(word_of(written.name))?;
    for argument in &written.arguments {
        put_argument(alloc, text, store, *argument)?;
    }
    Ok(())
}

// A step: its sequent, its rule, its premises, and whether it is right after others.
fn put_step(
    alloc: Global,
    text: &mut String,
    store: &Store,
    task: &Task,
    before: &[Step],
    step: &Step,
) -> Result<(), AllocError>
    requires task { TaskHeld store.now task.now }
    requires before { StepsHeld store.now before.now }
    requires step { StepHeld store.now step.now }
{
    let is_right = right_step(store, task, before, step);
    text.push_str("s ")?;
    put_trees(alloc, text, store, &[], step.sequent.as_slice())?;
    text.push_str(" : ")?;
    put_rule(alloc, text, store, &step.rule)?;
    text.push_str(" :")?;
    for premise in step.premises.as_slice() {
        text.push_str(" ")?;
        put_number(alloc, text, *premise)?;
    }
    text.push_str(if is_right { " right" } else { " wrong" })
}

// A thing that a line makes.
fn put_thing(
    alloc: Global,
    text: &mut String,
    store: &Store,
    task: &Task,
    before: &[Step],
    thing: &MadeThing,
) -> Result<(), AllocError>
    requires task { TaskHeld store.now task.now }
    requires before { StepsHeld store.now before.now }
    requires thing { ThingHeld store.now thing.now }
{
    match thing {
        MadeThing::Type(ty) => {
            text.push_str("y ")?;
            put_tree(alloc, text, store, &[], *ty)
        }
        MadeThing::Pattern(pattern) => {
            text.push_str("p ")?;
            put_tree(alloc, text, store, &[], *pattern)
        }
        MadeThing::Expression(expression) => {
            text.push_str("e ")?;
            put_tree(alloc, text, store, &[], *expression)
        }
        MadeThing::Derived(step) => put_step(alloc, text, store, task, before, step),
    }
}

// The words between single spaces.
fn split<'a>(alloc: Global, line: &'a [u8]) -> Result<Vec<&'a [u8]>, AllocError> {
    line.split(|b| *b == b' ').collect(alloc)
}

// What a line makes after others.
fn made_by(
    alloc: Global,
    store: &mut Store,
    task: &Task,
    table: &[NameEntry],
    names: &TableNames,
    read: &Read,
    line: &[u8],
) -> Result<Option<MadeThing>, AllocError>
    requires task { TaskHeld store.old task.now }
    requires names { IsNamesOf names.now table.now }
    requires read { RowReadHeld store.old read.now }
    ensures grows { Grows store.old store.new }
    ensures held { IfOk result (λ o. IfSome o (ThingHeld store.new)) }
{
    let known = EarlierLines {
        task,
        table,
        names,
        types: &read.types,
        patterns: &read.patterns,
        expressions: &read.expressions,
    };
    let words = split(alloc, line)?;
    made_by_line(alloc, store, &known, &words)
}

/// Puts what a line makes, and keeps it after what others made.
#[tactic(auto, using(crate::proofs::Growth::kept_held, crate::proofs::Growth::read_later))]
pub(crate) fn put_line(
    alloc: Global,
    text: &mut String,
    store: &mut Store,
    task: &Task,
    table: &[NameEntry],
    names: &TableNames,
    read: &mut Read,
    line: &[u8],
) -> Result<(), AllocError>
    requires task { TaskHeld store.old task.now }
    requires names { IsNamesOf names.now table.now }
    requires read { RowReadHeld store.old read.old }
    ensures grows { Grows store.old store.new }
    ensures read { OnOk result (RowReadHeld store.new read.new) }
{
    match made_by(alloc, store, task, table, names, read, line)? {
        Some(thing) => {
            put_thing(alloc, text, store, task, &read.steps, &thing)?;
            keep(read, thing)?;
            text.push_str("\n")
        }
        None => text.push_str("-\n"),
    }
}
