// The lines of a step file, each read when it ends.
// They depend on right lines and what they make; the reader in pieces depends on them.
ghost use Rattle.std.specs.Prelude.{◌≡◌, ◌+◌, ℕ, List, [], ◌∷◌, ◌++◌, Option, OnOk, IfOk, IfErr};
ghost use Rattle.tasks.specs.trees.Tree.{Tree};
ghost use Rattle.tasks.specs.trees.Node.{Grows};
ghost use Rattle.tasks.specs.Task.{TaskTree};
ghost use Rattle.tasks.specs.Meaning.{task_at, TaskHeld};
ghost use Rattle.kernel.specs.Right.{last_starts};
ghost use Rattle.rules.specs.Meaning.{steps_at, StepsHeld};
ghost use Rattle.name_tables.specs.declared.name_entries.names.NameEntry.{NameEntry};
ghost use Rattle.step_reading.specs.Words.{ended_lines};
ghost use Rattle.step_reading.specs.Reading.{ReaderHeld};
ghost use Rattle.step_reading.specs.Fed.{AreLinesRead, AreBytesRead, IsLineFault, IsUnfinished};

use crate::fault::ReadFault;
use crate::good::{Reader, right_thing};
use crate::read::{Read, into_steps, keep};
use kernel::ends_in_start;
use rules::Step;
use std::alloc::{AllocError, Global};
use tasks::{Store, Task};

/// What the ended lines have made, how many they are, and the bytes of the unfinished one.
#[derive(Drop)]
pub(crate) struct ReadLines {
    pub read: Read,
    pub marks: Vec<bool>,
    pub ended: u64,
    pub rest: Vec<u8>,
}

/// No lines.
pub(crate) fn no_lines(alloc: Global) -> ReadLines
    ensures { (t : TaskTree) (names : List NameEntry) (tallest : Option ℕ) (s : List Tree)
        → AreBytesRead t names tallest s [] result }
{
    ReadLines {
        read: Read {
            types: Vec::new(alloc),
            patterns: Vec::new(alloc),
            expressions: Vec::new(alloc),
            steps: Vec::new(alloc),
        },
        marks: Vec::new(alloc),
        ended: 0,
        rest: Vec::new(alloc),
    }
}

// The number of the line after so many. Memory holds no more lines than there are numbers.
fn line_after(count: u64) -> Result<u64, AllocError>
    ensures { IfOk result (λ n. n ≡ count + 1) }
{
    match count.checked_add(1) {
        Some(number) => Ok(number),
        None => Err(AllocError),
    }
}

// Reads the unfinished line, which ends here.
fn read_line(
    alloc: Global,
    store: &mut Store,
    x: &Reader<'_>,
    lines: &mut ReadLines,
) -> Result<(), ReadFault>
    requires reader { ReaderHeld store.old x.now }
    requires lines { (ls : List (List ℕ)) × AreLinesRead (task_at store.old x.now.task.now)
        x.now.table.now x.now.tallest store.old ls lines.old }
    ensures read { OnOk result ((ls : List (List ℕ))
        → AreLinesRead (task_at store.old x.now.task.now) x.now.table.now x.now.tallest store.old
        ls lines.old
        → AreLinesRead (task_at store.old x.now.task.now) x.now.table.now x.now.tallest store.new
        (ls ++ lines.old.rest.items ∷ []) lines.new) }
    ensures rest { OnOk result (lines.new.rest.items ≡ []) }
    ensures fault { IfErr result (λ e. (ls : List (List ℕ))
        → AreLinesRead (task_at store.old x.now.task.now) x.now.table.now x.now.tallest store.old
        ls lines.old
        → IsLineFault (task_at store.old x.now.task.now) x.now.table.now x.now.tallest
        (ls ++ lines.old.rest.items ∷ []) e) }
    ensures grows { Grows store.old store.new }
{
    let number = line_after(lines.ended)?;
    let made = right_thing(alloc, store, x, &lines.read, &mut lines.marks, &lines.rest)?;
    let Some(thing) = made else {
        return Err(ReadFault::WrongLine { line: number });
    };
    keep(&mut lines.read, thing)?;
    lines.ended = number;
    lines.rest.clear();
    Ok(())
}

// Takes a byte: a line feed ends the unfinished line, and any other goes to it.
fn read_byte(
    alloc: Global,
    store: &mut Store,
    x: &Reader<'_>,
    lines: &mut ReadLines,
    byte: u8,
) -> Result<(), ReadFault>
    requires reader { ReaderHeld store.old x.now }
    requires lines { (bytes : List ℕ) × AreBytesRead (task_at store.old x.now.task.now)
        x.now.table.now x.now.tallest store.old bytes lines.old }
    ensures read { OnOk result ((bytes : List ℕ)
        → AreBytesRead (task_at store.old x.now.task.now) x.now.table.now x.now.tallest store.old
        bytes lines.old
        → AreBytesRead (task_at store.old x.now.task.now) x.now.table.now x.now.tallest store.new
        (bytes ++ byte ∷ []) lines.new) }
    ensures fault { IfErr result (λ e. (bytes : List ℕ)
        → AreBytesRead (task_at store.old x.now.task.now) x.now.table.now x.now.tallest store.old
        bytes lines.old
        → IsLineFault (task_at store.old x.now.task.now) x.now.table.now x.now.tallest
        (ended_lines (bytes ++ byte ∷ [])) e) }
    ensures grows { Grows store.old store.new }
{
    if byte == b'\n' {
        return read_line(alloc, store, x, lines);
    }
    lines.rest.push(byte)?;
    Ok(())
}

/// Reads the lines that end in a piece, and keeps the bytes after them.
pub(crate) fn read_piece(
    alloc: Global,
    store: &mut Store,
    x: &Reader<'_>,
    lines: &mut ReadLines,
    piece: &[u8],
) -> Result<(), ReadFault>
    requires reader { ReaderHeld store.old x.now }
    requires lines { (bytes : List ℕ) × AreBytesRead (task_at store.old x.now.task.now)
        x.now.table.now x.now.tallest store.old bytes lines.old }
    ensures read { OnOk result ((bytes : List ℕ)
        → AreBytesRead (task_at store.old x.now.task.now) x.now.table.now x.now.tallest store.old
        bytes lines.old
        → AreBytesRead (task_at store.old x.now.task.now) x.now.table.now x.now.tallest store.new
        (bytes ++ piece.now) lines.new) }
    ensures fault { IfErr result (λ e. (bytes : List ℕ)
        → AreBytesRead (task_at store.old x.now.task.now) x.now.table.now x.now.tallest store.old
        bytes lines.old
        → IsLineFault (task_at store.old x.now.task.now) x.now.table.now x.now.tallest
        (ended_lines (bytes ++ piece.now)) e) }
    ensures grows { Grows store.old store.new }
{
    for i in 0..piece.len() {
        read_byte(alloc, store, x, lines, piece[i])?;
    }
    Ok(())
}

/// The steps of all lines, where the last one has the start of the task. Else the line after the last is wrong.
pub(crate) fn last_steps(
    store: &Store,
    task: &Task,
    lines: ReadLines,
) -> Result<Vec<Step>, ReadFault>
    requires task { TaskHeld store.now task.now }
    requires steps { StepsHeld store.now lines.read.steps.items }
    ensures steps { IfOk result (λ v. v.items ≡ lines.read.steps.items) }
    ensures starts { IfOk result (λ _. last_starts (task_at store.now task.now)
        (steps_at store.now lines.read.steps.items)) }
    ensures fault { IfErr result (IsUnfinished (task_at store.now task.now)
        (steps_at store.now lines.read.steps.items) lines.ended) }
{
    if ends_in_start(store, task, &lines.read.steps) {
        return Ok(into_steps(lines.read));
    }
    let line = line_after(lines.ended)?;
    Err(ReadFault::WrongLine { line })
}
