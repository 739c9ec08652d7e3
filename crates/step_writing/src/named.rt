// Whether the names of a table can be words of lines, and whether rules name symbols that have names.
// They depend on names by symbols; the writer of files depends on them.
ghost use Rattle.std.specs.Prelude.{◌≡◌, ◌↔◌, [], All, IsTrue, codes};
ghost use Rattle.name_tables.specs.declared.name_entries.names.NameOf.TheVariants.{Symbol};
ghost use Rattle.kernel.specs.rules.Meaning.{rule_at, steps_at};
ghost use Rattle.step_writing.specs.tree_writing.Spelt.{IsSpelt, AreNamesOf};
ghost use Rattle.kernel.specs.tasks.Words.{IsPlainByte, IsLineWord};
ghost use Rattle.step_writing.specs.Named.{IsName, AreWords, rule_symbols, SymbolsNamed};

use crate::tree_writing::SymbolNames;
use kernel::{Rule, Step, Store};
use name_tables::{NameEntry, NameOf};

// Whether a byte is no space and no line feed.
fn is_plain(byte: u8) -> bool
    ensures { IsTrue result ↔ IsPlainByte byte }
{
    byte != b' ' && byte != b'\n'
}

// Whether no space and no line feed is in a name.
fn is_word(name: &[u8]) -> bool
    ensures { IsTrue result ↔ IsLineWord name.now }
{
    for byte in name {
        if !is_plain(*byte) {
            return false;
        }
    }
    true
}

// Whether a name is the colon of steps.
fn is_colon(name: &[u8]) -> bool
    ensures { IsTrue result ↔ name.now ≡ codes ":" }
{
    name == b":".as_slice()
}

// Whether a name can be a word of a line.
fn is_name(name: &[u8]) -> bool
    ensures { IsTrue result ↔ IsName name.now }
{
    if is_colon(name) {
        return false;
    }
    is_word(name)
}

/// Whether each name of a table can be a word of a line.
pub(crate) fn are_words(table: &[NameEntry]) -> bool
    ensures { IsTrue result ↔ AreWords table.now }
{
    for entry in table {
        if !is_name(entry.name.as_slice()) {
            return false;
        }
    }
    true
}

// Whether the symbol that a rule names has a name, whole.
fn names_symbol(store: &Store, names: &SymbolNames, table: &[NameEntry], rule: &Rule) -> bool
    requires { AreNamesOf store.now table.now names.now }
    ensures { IsTrue result ↔ All (λ k. IsSpelt table.now (Symbol k) [])
        (rule_symbols (rule_at store.now rule.now)) }
{
    match rule {
        Rule::Def(k, _) => names
            .find_spelling(store, table, NameOf::Symbol(*k), names.end)
            .is_some(),
        Rule::Clause(k, _, _) => names
            .find_spelling(store, table, NameOf::Symbol(*k), names.end)
            .is_some(),
        Rule::Inv(k, _) => names
            .find_spelling(store, table, NameOf::Symbol(*k), names.end)
            .is_some(),
        _ => true,
    }
}

/// Whether the symbol that the rule of each step names has a name, whole.
pub(crate) fn name_symbols(
    store: &Store,
    names: &SymbolNames,
    table: &[NameEntry],
    steps: &[Step],
) -> bool
    requires { AreNamesOf store.now table.now names.now }
    ensures { IsTrue result ↔ All (SymbolsNamed table.now) (steps_at store.now steps.now) }
{
    for step in steps {
        if !names_symbol(store, names, table, &step.rule) {
            return false;
        }
    }
    true
}
