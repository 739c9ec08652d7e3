// Files of steps: what a whole file is read and written as, one with another line, and each beginning of one.
// They depend on the reader and the writer of step files; the answers depend on them.
ghost use Rattle.std.specs.Prelude.{List, ℕ, IfOk};
ghost use Rattle.tasks.specs.Meaning.{task_at, TaskHeld};
ghost use Rattle.step_writing.specs.kernel.Right.{Closes};
ghost use Rattle.step_writing.specs.step_reading.Fed.{IsFed};
ghost use Rattle.rules.specs.Meaning.{steps_at, StepsHeld};

use crate::words::number_of;
use row_texts::put_number;
use rules::Step;
use std::alloc::{AllocError, Global};
use step_writing::{NameEntry, ReadFault, StepReader, written_steps};
use tasks::{Store, Task};

/// The names by which files are read, and those by which they are written.
#[derive(Drop)]
pub(crate) struct Tables {
    pub read: Vec<NameEntry>,
    pub written: Vec<NameEntry>,
}

// Feeds a piece.
fn feed_piece(
    reader: &mut StepReader,
    store: &mut Store,
    task: &Task,
    table: &[NameEntry],
    piece: &[u8],
) -> Result<(), ReadFault>
    requires task { TaskHeld store.old task.now }
    requires fed { (bytes : List ℕ) × IsFed store.old task.now table.now bytes reader.old }
    ensures task { TaskHeld store.new task.now }
    ensures fed { (bytes : List ℕ) × IsFed store.new task.now table.now bytes reader.new }
{
    reader.feed(store, task, table, piece)
}

// The steps of a file that was fed.
fn finish_file(
    reader: StepReader,
    store: &mut Store,
    task: &Task,
    table: &[NameEntry],
) -> Result<Vec<Step>, ReadFault>
    requires task { TaskHeld store.old task.now }
    requires fed { (bytes : List ℕ) × IsFed store.old task.now table.now bytes reader }
    ensures task { TaskHeld store.new task.now }
    ensures held { IfOk result (λ v. StepsHeld store.new v.items) }
    ensures closes { IfOk result (λ v. Closes (task_at store.new task.now)
        (steps_at store.new v.items)) }
{
    reader.finish(store, task, table)
}

// The steps of a file, which is read in two pieces.
fn read_file(
    alloc: Global,
    store: &mut Store,
    task: &Task,
    table: &[NameEntry],
    first: &[u8],
    second: &[u8],
) -> Result<Vec<Step>, ReadFault>
    requires { TaskHeld store.old task.now }
    ensures task { TaskHeld store.new task.now }
    ensures held { IfOk result (λ v. StepsHeld store.new v.items) }
    ensures closes { IfOk result (λ v. Closes (task_at store.new task.now)
        (steps_at store.new v.items)) }
{
    let mut reader = StepReader::new(alloc, None);
    feed_piece(&mut reader, store, task, table, first)?;
    feed_piece(&mut reader, store, task, table, second)?;
    finish_file(reader, store, task, table)
}

// The first wrong line of a file, if there is one.
fn wrong_line(
    alloc: Global,
    store: &mut Store,
    task: &Task,
    table: &[NameEntry],
    first: &[u8],
    second: &[u8],
) -> Result<Option<u64>, AllocError>
    requires { TaskHeld store.old task.now }
    ensures { TaskHeld store.new task.now }
{
    match read_file(alloc, store, task, table, first, second) {
        Ok(_) => Ok(None),
        Err(ReadFault::WrongLine { line }) => Ok(Some(line)),
        Err(ReadFault::Memory) => Err(AllocError),
    }
}

// A file that was read: its first wrong line, or its number of steps and, where each symbol has a name, their file.
#[derive(Drop)]
enum Rewritten {
    Wrong(u64),
    Unnamed,
    Written(usize, Vec<u8>),
}

// What a file that is read by names is written as by others.
fn rewrite(
    alloc: Global,
    store: &mut Store,
    task: &Task,
    names: &[NameEntry],
    others: &[NameEntry],
    file: &[u8],
) -> Result<Rewritten, AllocError>
    requires { TaskHeld store.old task.now }
    ensures { TaskHeld store.new task.now }
{
    match read_file(alloc, store, task, names, file, b"") {
        Ok(steps) => match written_steps(alloc, store, task, others, &steps)? {
            Some(text) => Ok(Rewritten::Written(steps.len(), text)),
            None => Ok(Rewritten::Unnamed),
        },
        Err(ReadFault::WrongLine { line }) => Ok(Rewritten::Wrong(line)),
        Err(ReadFault::Memory) => Err(AllocError),
    }
}

// Whether a file that was written is read as so many steps, which are written as itself.
fn is_read_back(
    alloc: Global,
    store: &mut Store,
    task: &Task,
    names: &[NameEntry],
    count: usize,
    file: &[u8],
) -> Result<bool, AllocError>
    requires { TaskHeld store.old task.now }
    ensures { TaskHeld store.new task.now }
{
    match rewrite(alloc, store, task, names, names, file)? {
        Rewritten::Written(again, text) => Ok(again == count && text.as_slice() == file),
        _ => Ok(false),
    }
}

// The number of a line.
fn put_line_number(alloc: Global, text: &mut String, line: u64) -> Result<(), AllocError> {
    put_number(alloc, text, usize::try_from(line).unwrap_or(0))
}

// The first wrong line of a file, or how many steps it has, and whether they are read back.
fn put_file(
    alloc: Global,
    text: &mut String,
    store: &mut Store,
    task: &Task,
    tables: &Tables,
    file: &[u8],
) -> Result<(), AllocError>
    requires { TaskHeld store.old task.now }
    ensures { TaskHeld store.new task.now }
{
    match rewrite(alloc, store, task, &tables.read, &tables.written, file)? {
        Rewritten::Wrong(line) => {
            text.push_str("line ")?;
            put_line_number(alloc, text, line)
        }
        Rewritten::Unnamed => text.push_str("no name"),
        Rewritten::Written(count, again) => {
            put_number(alloc, text, count)?;
            let is_same = is_read_back(alloc, store, task, &tables.written, count, &again)?;
            text.push_str(if is_same {
                " steps"
            } else {
                " steps, which aren't read back"
            })
        }
    }
}

// The steps of a file, which is read in pieces of so many bytes, and how many bytes were taken.
fn read_pieces(
    alloc: Global,
    store: &mut Store,
    task: &Task,
    table: &[NameEntry],
    file: &[u8],
    size: usize,
    taken: &mut usize,
) -> Result<Vec<Step>, ReadFault>
    requires { TaskHeld store.old task.now }
    ensures { TaskHeld store.new task.now }
{
    let mut reader = StepReader::new(alloc, None);
    *taken = 0;
    for piece in file.chunks(size.max(1)) {
        feed_piece(&mut reader, store, task, table, piece)?;
        *taken = taken.saturating_add(piece.len());
    }
    finish_file(reader, store, task, table)
}

// How many steps a file has that is read in pieces, or its first wrong line and the bytes that were taken before the piece
// that is refused.
fn put_pieces(
    alloc: Global,
    text: &mut String,
    store: &mut Store,
    task: &Task,
    tables: &Tables,
    file: &[u8],
    size: usize,
) -> Result<(), AllocError>
    requires { TaskHeld store.old task.now }
    ensures { TaskHeld store.new task.now }
{
    let mut taken = 0;
    match read_pieces(alloc, store, task, &tables.read, file, size, &mut taken) {
        Ok(steps) => {
            put_number(alloc, text, steps.len())?;
            text.push_str(" steps")
        }
        Err(ReadFault::WrongLine { line }) => {
            text.push_str("line ")?;
            put_line_number(alloc, text, line)?;
            text.push_str(" after ")?;
            put_number(alloc, text, taken)
        }
        Err(ReadFault::Memory) => Err(AllocError),
    }
}

// The text of a file, with a semicolon for each line feed.
fn put_bytes(text: &mut String, file: &[u8]) -> Result<(), AllocError> {
    for byte in file {
        text.push(if *byte == b'\n' {
            ';'
        } else {
            char::from(*byte)
        })?;
    }
    Ok(())
}

// The text that a file is written as.
fn put_text(
    alloc: Global,
    text: &mut String,
    store: &mut Store,
    task: &Task,
    tables: &Tables,
    file: &[u8],
) -> Result<(), AllocError>
    requires { TaskHeld store.old task.now }
    ensures { TaskHeld store.new task.now }
{
    match rewrite(alloc, store, task, &tables.read, &tables.written, file)? {
        Rewritten::Written(_, again) => put_bytes(text, &again),
        _ => text.push_str("-"),
    }
}

// The first wrong line of a beginning of a file, and whether the file, read in two pieces, has one.
fn put_cut(
    alloc: Global,
    text: &mut String,
    store: &mut Store,
    task: &Task,
    tables: &Tables,
    first: &[u8],
    second: &[u8],
) -> Result<(), AllocError>
    requires { TaskHeld store.old task.now }
    ensures { TaskHeld store.new task.now }
{
    if let Some(line) = wrong_line(alloc, store, task, &tables.read, first, b"")? {
        put_line_number(alloc, text, line)?;
    }
    if wrong_line(alloc, store, task, &tables.read, first, second)?.is_some() {
        text.push_str("!")?;
    }
    text.push_str(" ")
}

// What each beginning of a file is.
fn put_cuts(
    alloc: Global,
    text: &mut String,
    store: &mut Store,
    task: &Task,
    tables: &Tables,
    file: &[u8],
) -> Result<(), AllocError>
    requires { TaskHeld store.old task.now }
    ensures { TaskHeld store.new task.now }
{
    for k in 0..file.len() {
        put_cut(alloc, text, store, task, tables, &file[..k], &file[k..])?;
    }
    Ok(())
}

// The bytes of the lines of a file, one of which is another one. Those that begin with a dot are none of it.
fn bytes_of(
    alloc: Global,
    lines: &[String],
    place: Option<usize>,
    other: &str,
) -> Result<Vec<u8>, AllocError> {
    let mut bytes = Vec::new(alloc);
    for (k, line) in lines.iter().enumerate() {
        if !line.as_str().starts_with(".") {
            let line = if place == Some(k) {
                other
            } else {
                line.as_str()
            };
            bytes.extend_from_slice(line.as_bytes())?;
            bytes.push(b'\n')?;
        }
    }
    Ok(bytes)
}

// What is asked of a file: by `c` its beginnings, by `w` its text, by `b` and a number what it is in pieces of so many bytes, by
// a number and a line the file with this line there.
fn put_asked(
    alloc: Global,
    text: &mut String,
    store: &mut Store,
    task: &Task,
    tables: &Tables,
    lines: &[String],
    asked: &str,
) -> Result<(), AllocError>
    requires { TaskHeld store.old task.now }
    ensures { TaskHeld store.new task.now }
{
    if let Some((place, other)) = asked.split_once(' ') {
        let file = bytes_of(alloc, lines, Some(number_of(place)), other)?;
        return put_file(alloc, text, store, task, tables, &file);
    }
    let file = bytes_of(alloc, lines, None, "")?;
    if let Some(size) = asked.strip_prefix("b") {
        return put_pieces(alloc, text, store, task, tables, &file, number_of(size));
    }
    if asked == "c" {
        put_cuts(alloc, text, store, task, tables, &file)
    } else if asked == "w" {
        put_text(alloc, text, store, task, tables, &file)
    } else {
        put_file(alloc, text, store, task, tables, &file)
    }
}

// What is asked of a file by the lines that begin with a dot.
fn put_answers(
    alloc: Global,
    text: &mut String,
    store: &mut Store,
    task: &Task,
    tables: &Tables,
    lines: &[String],
) -> Result<(), AllocError>
    requires { TaskHeld store.old task.now }
    ensures { TaskHeld store.new task.now }
{
    for line in lines {
        if let Some(asked) = line.as_str().strip_prefix(".") {
            put_asked(alloc, text, store, task, tables, lines, asked)?;
            text.push_str("\n")?;
        }
    }
    Ok(())
}

/// Puts what is asked of each file; a line `f` is before each.
pub(crate) fn put_files(
    alloc: Global,
    text: &mut String,
    store: &mut Store,
    task: &Task,
    tables: &Tables,
    lines: &[String],
) -> Result<(), AllocError>
    requires { TaskHeld store.old task.now }
{
    for file in lines.split(|line| line.as_str() == "f") {
        put_answers(alloc, text, store, task, tables, file)?;
    }
    Ok(())
}
