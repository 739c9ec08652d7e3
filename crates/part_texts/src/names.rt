// The name tables of the parts of a goal, as lines.
// They depend on the problems of the parts; the program writes them.
ghost use Rattle.std.specs.Prelude.{◌≡◌, ◌≤◌, ◌++◌, ◌-◌, take, drop, length, List, IfOk, OnOk};
ghost use Rattle.std.specs.List.{flat_map};
ghost use Rattle.tasks.specs.trees.Tree.{Tree};
ghost use Rattle.tasks.specs.Task.{symbol_or};
ghost use Rattle.tasks.specs.Meaning.{symbol_at, symbols_at, task_at, tasks_at, TasksHeld};
ghost use Rattle.name_tables.specs.Spelling.{own_name};
ghost use Rattle.part_texts.specs.Problems.{AreProblems};
ghost use Rattle.part_texts.specs.Names.{entry_line, entry_words, is_operator_name, kind_word, name_text, name_texts, part_head, shown_name, shown_own, symbol_words, type_words};

use drivers::driver_parts::Driver;
use name_tables::{NameEntry, NameOf};
use printed_problems::Problem;
use std::alloc::{AllocError, Global};
use tasks::{Signature, Store, SymbolInfo, SymbolKind, Task};

// Whether a name without scopes is an operator's.
fn is_operator(name: &[u8]) -> bool
    ensures { result ≡ is_operator_name name.now }
{
    match name {
        [] => false,
        [byte, ..] => match byte {
            b'!'
            | b'#'
            | b'$'
            | b'%'
            | b'&'
            | b'*'
            | b'+'
            | b'-'
            | b'/'
            | b'<'
            | b'='
            | b'>'
            | b'?'
            | b'@'
            | b'\\'
            | b'^'
            | b'~' => true,
            _ => false,
        },
    }
}

// Where the name without those of its scopes begins.
fn own_start(name: &[u8]) -> usize
    ensures within { result ≤ length name.now }
    ensures own { drop result name.now ≡ own_name name.now }
{
    let mut start = 0;
    for place in 0..name.len() {
        if name[place] == b'.' {
            start = place + 1;
        }
    }
    start
}

// Appends a name without scopes, an operator in parentheses.
fn push_own(out: &mut Vec<u8>, own: &[u8]) -> Result<(), AllocError>
    ensures { OnOk result (out.new.items ≡ out.old.items ++ shown_own own.now) }
{
    if is_operator(own) {
        out.push(40)?;
        out.extend_from_slice(own)?;
        out.push(41)?;
        return Ok(());
    }
    out.extend_from_slice(own)
}

// Appends a name with those of its scopes.
fn push_name(out: &mut Vec<u8>, name: &[u8]) -> Result<(), AllocError>
    ensures { OnOk result (out.new.items ≡ out.old.items ++ shown_name name.now) }
{
    let start = own_start(name);
    out.extend_from_slice(&name[..start])?;
    push_own(out, &name[start..])
}

fn kind_word(kind: SymbolKind) -> &'static [u8]
    ensures { result.now ≡ kind_word kind }
{
    match kind {
        SymbolKind::Kind => b"type",
        SymbolKind::Predicate => b"predicate",
        SymbolKind::Function | SymbolKind::Constructor | SymbolKind::Projection => b"function",
    }
}

// Appends the kind, the theory and the name of a symbol.
fn push_symbol(out: &mut Vec<u8>, symbol: &SymbolInfo) -> Result<(), AllocError>
    ensures { OnOk result ((s : List Tree) → out.new.items ≡ out.old.items
        ++ symbol_words (symbol_at s symbol.now)) }
{
    out.extend_from_slice(kind_word(symbol.kind))?;
    out.push(b' ')?;
    out.extend_from_slice(symbol.theory.as_slice())?;
    out.push(b'.')?;
    push_name(out, symbol.name.as_slice())
}

// Appends the name of a type variable.
fn push_variable(out: &mut Vec<u8>, sig: &Signature, symbol: usize) -> Result<(), AllocError>
    ensures { OnOk result ((s : List Tree) → out.new.items ≡ out.old.items
        ++ (symbol_or (symbols_at s sig.now.symbols) symbol).name) }
{
    match sig.symbols.as_slice().get(symbol) {
        Some(its) => out.extend_from_slice(its.name.as_slice()),
        None => out.extend_from_slice(b"int"),
    }
}

// Appends the kind, the theory and the name of the symbol of an entry of the signature.
fn push_symbol_at(out: &mut Vec<u8>, sig: &Signature, symbol: usize) -> Result<(), AllocError>
    ensures { OnOk result ((s : List Tree) → out.new.items ≡ out.old.items
        ++ symbol_words (symbol_or (symbols_at s sig.now.symbols) symbol)) }
{
    let symbols = sig.symbols.as_slice();
    if symbol < symbols.len() {
        push_symbol(out, &symbols[symbol])?;
        return Ok(());
    }
    out.extend_from_slice(b"type BuiltIn.int")?;
    Ok(())
}

// Appends what a name stands for.
fn push_words(out: &mut Vec<u8>, sig: &Signature, its: NameOf) -> Result<(), AllocError>
    ensures { OnOk result ((s : List Tree) → out.new.items ≡ out.old.items
        ++ entry_words (symbols_at s sig.now.symbols) its) }
{
    match its {
        NameOf::Int => out.extend_from_slice(b"type int"),
        NameOf::Rigid(symbol) => {
            out.extend_from_slice(b"type ")?;
            push_variable(out, sig, symbol)?;
            Ok(())
        }
        NameOf::Symbol(symbol) => push_symbol_at(out, sig, symbol),
    }
}

// Appends the name at a place of the table, after a blank.
fn push_type(out: &mut Vec<u8>, names: &[NameEntry], place: usize) -> Result<(), AllocError>
    ensures { OnOk result (out.new.items ≡ out.old.items ++ type_words names.now place) }
{
    out.push(b' ')?;
    match names.get(place) {
        Some(entry) => out.extend_from_slice(entry.name.as_slice()),
        None => Ok(()),
    }
}

// Appends the names of types, by their places in the table, a blank before each.
fn push_types(out: &mut Vec<u8>, names: &[NameEntry], types: &[usize]) -> Result<(), AllocError>
    ensures { OnOk result (out.new.items ≡ out.old.items ++ flat_map (type_words names.now)
        types.now) }
{
    for place in types {
        push_type(out, names, *place)?;
    }
    Ok(())
}

// Appends the line of an entry of a table.
fn push_entry(
    out: &mut Vec<u8>,
    sig: &Signature,
    names: &[NameEntry],
    entry: &NameEntry,
) -> Result<(), AllocError>
    ensures { OnOk result ((s : List Tree) → out.new.items ≡ out.old.items
        ++ entry_line (symbols_at s sig.now.symbols) names.now entry.now) }
{
    out.extend_from_slice(entry.name.as_slice())?;
    out.push(b' ')?;
    push_words(out, sig, entry.symbol)?;
    push_types(out, names, entry.types.as_slice())?;
    out.push(b'\n')?;
    Ok(())
}

// Appends the line that counts a part.
fn push_head(alloc: Global, out: &mut Vec<u8>, part: usize, parts: usize) -> Result<(), AllocError>
    ensures { OnOk result (out.new.items ≡ out.old.items ++ part_head part parts) }
{
    out.extend_from_slice(b"; ")?;
    let number = part.to_string(alloc)?;
    out.extend_from_slice(number.as_bytes())?;
    out.extend_from_slice(b" of ")?;
    let count = parts.to_string(alloc)?;
    out.extend_from_slice(count.as_bytes())?;
    out.push(b'\n')?;
    Ok(())
}

// Appends the table of a part.
fn push_names(
    alloc: Global,
    out: &mut Vec<u8>,
    sig: &Signature,
    names: &[NameEntry],
    part: usize,
    parts: usize,
) -> Result<(), AllocError>
    ensures { OnOk result ((s : List Tree) → out.new.items ≡ out.old.items
        ++ name_text part parts (symbols_at s sig.now.symbols) names.now) }
{
    push_head(alloc, out, part, parts)?;
    for entry in names {
        push_entry(out, sig, names, entry)?;
    }
    Ok(())
}

/// The name tables of the parts of a goal, counted from 1: for each part a line with its number, and a line for each entry, with
/// its name, whether it is a type, a function or a predicate, what it stands for, and the names of its types. Only want of memory
/// refuses.
pub fn name_texts(
    alloc: Global,
    store: &Store,
    driver: &Driver,
    tasks: &[Task],
    problems: &[Problem],
) -> Result<Vec<u8>, AllocError>
    requires held { TasksHeld store.now tasks.now }
    requires problems { AreProblems store.now driver.now (tasks_at store.now tasks.now)
        problems.now }
    ensures { IfOk result (λ v. v.items ≡ name_texts driver.now (tasks_at store.now
        tasks.now)) }
{
    let _ = store;
    let _ = driver;
    let mut out = Vec::new(alloc);
    let parts = tasks.len();
    for place in 0..parts {
        let names = problems[place].names.as_slice();
        push_names(alloc, &mut out, &tasks[place].sig, names, place + 1, parts)?;
    }
    Ok(out)
}
