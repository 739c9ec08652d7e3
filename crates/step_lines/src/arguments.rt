// The arguments of a rule that words write.
// They depend on known things and on the words of rules; the steps of lines depend on them.
ghost use Rattle.std.specs.Prelude.{◌≡◌, ◌++◌, ◌∷◌, map, All, IfOk, IfSome};
ghost use Rattle.std.specs.Option.{option_map, option_and_then};
ghost use Rattle.trees.specs.Node.{Grows};
ghost use Rattle.trees.specs.binders.Visits.{HoldTypes};
ghost use Rattle.tasks.specs.Meaning.{task_at, trees_at};
ghost use Rattle.step_lines.specs.rule_words.Arguments.{AType, argument_at, arguments_at, ArgumentHeld};
ghost use Rattle.step_lines.specs.tree_lines.Words.{texts};
ghost use Rattle.step_lines.specs.tree_lines.Named.{entry_named, meaning};
ghost use Rattle.step_lines.specs.tree_lines.Lines.{symbol_number};
ghost use Rattle.step_lines.specs.tree_lines.Made.{KnownHeld, IsNamesOf, earlier_at};
ghost use Rattle.step_lines.specs.Steps.{argument, arguments, next_kinds, types_named, own_types};

use crate::rule_words::{Argument, ArgumentKind};
use crate::tree_lines::{EarlierLines, meaning_of, number_of_word, thing};
use name_tables::name_entries::NameOf;
use std::alloc::{AllocError, Global};
use trees::store::{Store, TermId};
use word_tables::integers::integer;

// The symbol that a name stands for.
fn symbol_named(x: &EarlierLines<'_>, word: &[u8]) -> Option<usize>
    requires { IsNamesOf x.now.names.now x.now.table.now }
    ensures { result ≡ option_and_then (λ e. symbol_number e.symbol)
        (entry_named x.now.table.now word.now) }
{
    match x.names.find_entry(x.table, word)?.symbol {
        NameOf::Symbol(symbol) => Some(symbol),
        NameOf::Int | NameOf::Rigid(_) => None,
    }
}

// The argument of a kind that a word writes.
#[tactic(auto, unfolding(crate::specs::rule_words::Arguments::argument_at, crate::specs::rule_words::Arguments::ArgumentHeld), using(crate::proofs::tree_lines::Growing::types_held))]
fn word_argument(
    store: &Store,
    x: &EarlierLines<'_>,
    kind: ArgumentKind,
    word: &[u8],
) -> Option<Argument>
    requires { KnownHeld store.now x.now }
    ensures tree { option_map (argument_at store.now) result
        ≡ argument (task_at store.now x.now.task.now) x.now.table.now (earlier_at store.now x.now)
        kind word.now }
    ensures held { IfSome result (ArgumentHeld store.now) }
{
    match kind {
        ArgumentKind::Number => Some(Argument::Number(number_of_word(word)?)),
        ArgumentKind::Symbol => Some(Argument::Symbol(symbol_named(x, word)?)),
        ArgumentKind::Integer => Some(Argument::Integer(integer(word)?)),
        ArgumentKind::Expression => Some(Argument::Expression(thing(store, x.expressions, word)?)),
        ArgumentKind::Type => Some(Argument::Type(thing(store, x.types, word)?)),
    }
}

// The kinds of the arguments that are left: where none is, the repeated ones.
fn next_of<'a>(left: &'a [ArgumentKind], again: &'a [ArgumentKind]) -> &'a [ArgumentKind]
    ensures { result.now ≡ next_kinds left.now again.now }
{
    match left {
        [] => again,
        _ => left,
    }
}

/// The arguments of words: of these kinds, in order, and then of the repeated ones in turn, any number of times.
pub(crate) fn word_arguments(
    alloc: Global,
    store: &Store,
    x: &EarlierLines<'_>,
    kinds: &[ArgumentKind],
    again: &[ArgumentKind],
    words: &[&[u8]],
) -> Result<Option<Vec<Argument>>, AllocError>
    requires { KnownHeld store.now x.now }
    ensures trees { IfOk result (λ o. option_map (λ v. arguments_at store.now v.items) o
        ≡ arguments (task_at store.now x.now.task.now) x.now.table.now (earlier_at store.now x.now)
        kinds.now again.now (texts words.now)) }
    ensures held { IfOk result (λ o. IfSome o (λ v. All (ArgumentHeld store.now) v.items)) }
{
    let mut all = Vec::new(alloc);
    let mut left = kinds;
    for word in words {
        let [kind, others @ ..] = next_of(left, again) else {
            return Ok(None);
        };
        match word_argument(store, x, *kind, word) {
            Some(found) => all.push(found)?,
            None => return Ok(None),
        }
        left = others;
    }
    match left {
        [] => Ok(Some(all)),
        _ => Ok(None),
    }
}

// Types as arguments.
#[tactic(auto, unfolding(crate::specs::rule_words::Arguments::argument_at, crate::specs::rule_words::Arguments::ArgumentHeld))]
fn type_arguments(
    alloc: Global,
    store: &Store,
    types: &[TermId],
) -> Result<Vec<Argument>, AllocError>
    requires { HoldTypes store.now types.now }
    ensures trees { IfOk result (λ v. arguments_at store.now v.items
        ≡ map AType (trees_at store.now types.now)) }
    ensures held { IfOk result (λ v. All (ArgumentHeld store.now) v.items) }
{
    let _ = store;
    let mut all = Vec::new(alloc);
    for ty in types {
        all.push(Argument::Type(*ty))?;
    }
    Ok(all)
}

// The types at which a name stands, as arguments.
fn types_of_name(
    alloc: Global,
    store: &mut Store,
    x: &EarlierLines<'_>,
    word: &[u8],
) -> Result<Vec<Argument>, AllocError>
    requires { KnownHeld store.old x.now }
    ensures trees { IfOk result (λ v. arguments_at store.new v.items
        ≡ types_named (meaning x.now.table.now word.now)) }
    ensures held { IfOk result (λ v. All (ArgumentHeld store.new) v.items) }
    ensures grows { Grows store.old store.new }
{
    match meaning_of(alloc, store, x.names, x.table, word)? {
        Some(named) => type_arguments(alloc, store, &named.types),
        None => Ok(Vec::new(alloc)),
    }
}

/// The types at which the name stands that a rule begins with, as arguments.
pub(crate) fn types_of_first(
    alloc: Global,
    store: &mut Store,
    x: &EarlierLines<'_>,
    kinds: &[ArgumentKind],
    words: &[&[u8]],
) -> Result<Vec<Argument>, AllocError>
    requires { KnownHeld store.old x.now }
    ensures trees { IfOk result (λ v. arguments_at store.new v.items
        ≡ own_types (task_at store.old x.now.task.now) x.now.table.now (earlier_at store.old x.now)
        kinds.now (texts words.now)) }
    ensures held { IfOk result (λ v. All (ArgumentHeld store.new) v.items) }
    ensures grows { Grows store.old store.new }
{
    let [kind, ..] = kinds else {
        return Ok(Vec::new(alloc));
    };
    let [name, ..] = words else {
        return Ok(Vec::new(alloc));
    };
    match kind {
        ArgumentKind::Symbol => types_of_name(alloc, store, x, name),
        ArgumentKind::Number
        | ArgumentKind::Integer
        | ArgumentKind::Expression
        | ArgumentKind::Type => Ok(Vec::new(alloc)),
    }
}
