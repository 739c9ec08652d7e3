// The answer to a block: what each line makes, and then whether its steps close the task.
ghost use Rattle.tasks.specs.trees.Node.{Grows};
ghost use Rattle.tasks.specs.Meaning.{TaskHeld};
ghost use Rattle.rules.specs.Meaning.{StepsHeld};

use crate::files::{Tables, put_files};
use crate::given::read_task;
use crate::lines::put_line;
use crate::read::Read;
use crate::words::number_of;
use row_texts::put_number;
use rules::Step;
use std::alloc::{AllocError, Global};
use step_lines::tree_lines::TableNames;
use step_writing::{NameEntry, NameOf, closes, ends_in_start, first_wrong};
use tasks::{Seq, Store, Task, Text};

// What a name stands for: `int` for the number 0, a type variable of the goal for a number after `!`, else a symbol.
fn meaning_of(word: &str) -> NameOf {
    if let Some(number) = word.strip_prefix("!") {
        return NameOf::Rigid(number_of(number));
    }
    match number_of(word) {
        0 => NameOf::Int,
        k => NameOf::Symbol(k),
    }
}

// An entry of the name table: a name, what it stands for, and the places of its types.
fn entry_of(alloc: Global, line: &str) -> Result<NameEntry, AllocError> {
    let mut words = line.split(' ');
    let name = words.next().unwrap_or("");
    let symbol = meaning_of(words.next().unwrap_or(""));
    let mut types = Seq::new(alloc);
    for word in words {
        types.push(number_of(word))?;
    }
    Ok(NameEntry {
        name: Text::from_slice(alloc, name.as_bytes())?,
        symbol,
        types,
    })
}

// A name table: the lines after `n ` or after `w `.
fn table_of(alloc: Global, lines: &[String], letter: &str) -> Result<Vec<NameEntry>, AllocError> {
    let mut table = Vec::new(alloc);
    for line in lines {
        if let Some(entry) = line.as_str().strip_prefix(letter) {
            table.push(entry_of(alloc, entry)?)?;
        }
    }
    Ok(table)
}

// The first wrong step, if any, and whether the last one is the start and all of them close the task.
fn put_verdict(
    alloc: Global,
    text: &mut String,
    store: &Store,
    task: &Task,
    steps: &[Step],
) -> Result<(), AllocError>
    requires task { TaskHeld store.now task.now }
    requires steps { StepsHeld store.now steps.now }
{
    if let Some(number) = first_wrong(store, task, steps) {
        text.push_str("wrong at ")?;
        put_number(alloc, text, number)?;
    }
    if ends_in_start(store, task, steps) {
        text.push_str(" ends in the start")?;
    }
    if closes(store, task, steps) {
        text.push_str(" closes")?;
    }
    text.push_str("\n")
}

// The lines after those of the name tables.
fn after_names<'a>(lines: &'a [String]) -> &'a [String] {
    match lines.split_first() {
        Some((first, rest)) => {
            if first.as_str().starts_with("n ") || first.as_str().starts_with("w ") {
                after_names(rest)
            } else {
                lines
            }
        }
        None => lines,
    }
}

// What each of the lines makes that are no names.
fn put_lines(
    alloc: Global,
    text: &mut String,
    store: &mut Store,
    task: &Task,
    lines: &[String],
) -> Result<(), AllocError>
    requires { TaskHeld store.old task.now }
{
    let table = table_of(alloc, lines, "n ")?;
    let names = TableNames::new(alloc, &table)?;
    let mut read = Read {
        types: Vec::new(alloc),
        patterns: Vec::new(alloc),
        expressions: Vec::new(alloc),
        steps: Vec::new(alloc),
    };
    for line in after_names(lines) {
        put_line(
            alloc,
            text,
            store,
            task,
            &table,
            &names,
            &mut read,
            line.as_bytes(),
        )?;
    }
    put_verdict(alloc, text, store, task, &read.steps)
}

// The table by which files are read, and the one by which they are written, which is the same where no other is given.
fn tables_of(alloc: Global, lines: &[String]) -> Result<Tables, AllocError> {
    let read = table_of(alloc, lines, "n ")?;
    let others = table_of(alloc, lines, "w ")?;
    let written = if others.is_empty() {
        table_of(alloc, lines, "n ")?
    } else {
        others
    };
    Ok(Tables { read, written })
}

// What is asked of files, or else what each line makes.
fn put_block(
    alloc: Global,
    text: &mut String,
    store: &mut Store,
    task: &Task,
    lines: &[String],
) -> Result<(), AllocError>
    requires { TaskHeld store.old task.now }
{
    if let Some((first, files)) = after_names(lines).split_first() {
        if first.as_str() == "f" {
            let tables = tables_of(alloc, lines)?;
            return put_files(alloc, text, store, task, &tables, files);
        }
    }
    put_lines(alloc, text, store, task, lines)
}

/// The answer to a block, whose first line is a theory.
pub(crate) fn describe(alloc: Global, block: &[String]) -> Result<String, AllocError> {
    let mut text = String::new(alloc);
    let Some((source, lines)) = block.split_first() else {
        return Ok(text);
    };
    let mut store = Store::new(alloc)?;
    let tasks = read_task(alloc, &mut store, source.as_str())?;
    match tasks.as_slice().first() {
        Some(task) => put_block(alloc, &mut text, &mut store, task, lines)?,
        None => text.push_str("no task\n")?,
    }
    Ok(text)
}
