// The lines of steps.
// They depend on names and on the numbers of lines; the writer of files depends on them.
ghost use Rattle.std.specs.Prelude.{◌≡◌, ◌++◌, ◌∷◌, [], All, OnOk};
ghost use Rattle.kernel.specs.trees.Node.{tree_at, Holds};
ghost use Rattle.kernel.specs.tasks.Meaning.{trees_at};
ghost use Rattle.name_tables.specs.declared.name_entries.names.NameOf.TheVariants.{Symbol};
ghost use Rattle.kernel.specs.rules.Meaning.{rule_at, step_at, RuleHeld, StepHeld};
ghost use Rattle.step_lines.specs.rule_words.Arguments.{ASymbol, argument_at, arguments_at};
ghost use Rattle.step_writing.specs.tree_writing.Spelt.{IsSpelt, AreNamesOf};
ghost use Rattle.step_writing.specs.tree_writing.Referring.{HasLine};
ghost use Rattle.step_writing.specs.tree_writing.Text.{spaced};
ghost use Rattle.step_writing.specs.Words.{IsLineOf, IsArgumentReady, PushesNumber, PushesNumbers, PushesReference, PushesArguments, PushesSequent, PushesRule, RuleReady, StepReady, PushesStep};

use crate::tree_writing::{SymbolNames, line_number};
use itoa::Buffer;
use kernel::{Rule, Step, Store, TermId};
use name_tables::{NameEntry, NameOf};
use std::alloc::{AllocError, Global};
use step_lines::integer_word;
use step_lines::rule_words::{Argument, word_of, written_rule};

/// What the line of a step is written from: the store, the table with its names, and the number of each tree's line by
/// its number in the store.
#[derive(Clone, Copy)]
pub(crate) struct Lines<'a> {
    pub store: &'a Store,
    pub table: &'a [NameEntry],
    pub names: &'a SymbolNames,
    pub numbers: &'a [Option<usize>],
}

// Appends a space and a word.
fn push_word(text: &mut Vec<u8>, word: &[u8]) -> Result<(), AllocError>
    ensures { OnOk result (text.new.items ≡ text.old.items ++ spaced (word.now ∷ [])) }
{
    text.push(b' ')?;
    text.extend_from_slice(word)?;
    Ok(())
}

// Appends the word of a number.
fn push_number(text: &mut Vec<u8>, number: usize) -> Result<(), AllocError>
    ensures { OnOk result (PushesNumber text.old.items text.new.items number) }
{
    let mut digits = Buffer::new();
    push_word(text, digits.format(number).as_bytes())
}

// Appends the words of numbers.
fn push_numbers(text: &mut Vec<u8>, numbers: &[usize]) -> Result<(), AllocError>
    ensures { OnOk result (PushesNumbers text.old.items text.new.items numbers.now) }
{
    for number in numbers {
        push_number(text, *number)?;
    }
    Ok(())
}

// Appends the number of a tree's line.
fn push_line_number(x: &Lines<'_>, text: &mut Vec<u8>, id: TermId) -> Result<(), AllocError>
    requires held { Holds x.now.store.now id }
    requires line { HasLine x.now.store.now x.now.numbers.now (tree_at x.now.store.now id) }
    ensures { OnOk result (PushesReference x.now text.old.items text.new.items
        (tree_at x.now.store.now id)) }
{
    push_number(text, line_number(x.store, x.numbers, id))
}

// Appends the name of a symbol that has one whole.
fn push_symbol_name(x: &Lines<'_>, text: &mut Vec<u8>, symbol: usize) -> Result<(), AllocError>
    requires names { AreNamesOf x.now.store.now x.now.table.now x.now.names.now }
    requires spelt { IsSpelt x.now.table.now (Symbol symbol) [] }
    ensures { OnOk result (PushesArguments x.now text.old.items text.new.items
        (ASymbol symbol ∷ [])) }
{
    let Some(spelling) = x
        .names
        .find_spelling(x.store, x.table, NameOf::Symbol(symbol), x.names.end)
    else {
        unreachable!()
    };
    push_word(text, spelling.name)
}

// Appends the word of an argument.
fn push_argument(
    alloc: Global,
    x: &Lines<'_>,
    text: &mut Vec<u8>,
    argument: Argument,
) -> Result<(), AllocError>
    requires names { AreNamesOf x.now.store.now x.now.table.now x.now.names.now }
    requires ready { IsArgumentReady x.now argument }
    ensures { OnOk result (PushesArguments x.now text.old.items text.new.items
        (argument_at x.now.store.now argument ∷ [])) }
{
    match argument {
        Argument::Number(n) => push_number(text, n),
        Argument::Symbol(k) => push_symbol_name(x, text, k),
        Argument::Integer(n) => push_word(text, integer_word(alloc, n)?.as_bytes()),
        Argument::Expression(e) => push_line_number(x, text, e),
        Argument::Type(y) => push_line_number(x, text, y),
    }
}

// Appends the words of arguments.
fn push_arguments(
    alloc: Global,
    x: &Lines<'_>,
    text: &mut Vec<u8>,
    arguments: &[Argument],
) -> Result<(), AllocError>
    requires names { AreNamesOf x.now.store.now x.now.table.now x.now.names.now }
    requires ready { All (IsArgumentReady x.now) arguments.now }
    ensures { OnOk result (PushesArguments x.now text.old.items text.new.items
        (arguments_at x.now.store.now arguments.now)) }
{
    for argument in arguments {
        push_argument(alloc, x, text, *argument)?;
    }
    Ok(())
}

// Appends the numbers of the lines of formulas.
fn push_sequent(x: &Lines<'_>, text: &mut Vec<u8>, formulas: &[TermId]) -> Result<(), AllocError>
    requires held { All (Holds x.now.store.now) formulas.now }
    requires lines { All (IsLineOf x.now.store.now x.now.numbers.now)
        (trees_at x.now.store.now formulas.now) }
    ensures { OnOk result (PushesSequent x.now text.old.items text.new.items
        (trees_at x.now.store.now formulas.now)) }
{
    for id in formulas {
        push_line_number(x, text, *id)?;
    }
    Ok(())
}

// Appends the words of a rule.
fn push_rule(
    alloc: Global,
    x: &Lines<'_>,
    text: &mut Vec<u8>,
    rule: &Rule,
) -> Result<(), AllocError>
    requires names { AreNamesOf x.now.store.now x.now.table.now x.now.names.now }
    requires held { RuleHeld x.now.store.now rule.now }
    requires ready { RuleReady x.now (rule_at x.now.store.now rule.now) }
    ensures { OnOk result (PushesRule x.now text.old.items text.new.items
        (rule_at x.now.store.now rule.now)) }
{
    let written = written_rule(alloc, rule)?;
    push_word(text, word_of(written.name).as_bytes())?;
    push_arguments(alloc, x, text, &written.arguments)
}

/// Appends the line of a step, which is read back as it wherever the lines before it are those.
pub(crate) fn push_step(
    alloc: Global,
    x: &Lines<'_>,
    text: &mut Vec<u8>,
    step: &Step,
) -> Result<(), AllocError>
    requires held { StepHeld x.now.store.now step.now }
    requires ready { StepReady x.now (step_at x.now.store.now step.now) }
    ensures { OnOk result (PushesStep x.now text.old.items text.new.items step.now) }
{
    text.push(b's')?;
    push_sequent(x, text, step.sequent.as_slice())?;
    push_word(text, b":")?;
    push_rule(alloc, x, text, &step.rule)?;
    push_word(text, b":")?;
    push_numbers(text, step.premises.as_slice())?;
    text.push(b'\n')?;
    Ok(())
}
