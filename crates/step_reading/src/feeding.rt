// A reader that is fed a step file in pieces.
// It depends on the reading of lines as they end.
ghost use Rattle.std.specs.Prelude.{◌≡◌, ℕ, List, ◌++◌, [], Err, Option, Some, None, IfOk, IfErr, IfSome, OnOk};
ghost use Rattle.tasks.specs.trees.Tree.{Tree};
ghost use Rattle.tasks.specs.trees.Node.{Grows};
ghost use Rattle.tasks.specs.Meaning.{task_at, TaskHeld};
ghost use Rattle.tasks.specs.declared.task.Task.{Task};
ghost use Rattle.rules.specs.Trees.{StepTree};
ghost use Rattle.kernel.specs.Right.{Closes};
ghost use Rattle.rules.specs.Meaning.{steps_at, StepsHeld};
ghost use Rattle.name_tables.specs.declared.name_entries.names.NameEntry.{NameEntry};
ghost use Rattle.step_reading.specs.Words.{lines_of, ended_lines};
ghost use Rattle.step_reading.specs.Lines.{StepsOf, FirstWrongAmong};
ghost use Rattle.step_reading.specs.Reading.{IsReadFault};
ghost use Rattle.step_reading.specs.Fed.{AreTablesOf, AreLinesRead, AreBytesRead, IsLineFault, IsFed, answer_of};
ghost use Rattle.step_reading.specs.declared.fault.ReadFault.{ReadFault};
ghost use Rattle.step_reading.specs.declared.fault.ReadFault.TheVariants.{Memory};

use crate::ended::{ReadLines, last_steps, no_lines, read_piece};
use crate::fault::ReadFault;
use crate::good::Reader;
use name_tables::name_entries::NameEntry;
use rules::Step;
use std::alloc::{AllocError, Global};
use step_lines::tree_lines::TableNames;
use tasks::{Index, Store, Task};

// What a task's entries and the names of a table are found by.
#[derive(Drop)]
struct Tables {
    index: Index,
    places: TableNames,
}

// The tables of a task and of names, which may be there already.
fn tables_of(
    alloc: Global,
    known: Option<Tables>,
    task: &Task,
    names: &[NameEntry],
) -> Result<Tables, AllocError>
    requires { IfSome known (AreTablesOf task.now names.now) }
    ensures { IfOk result (AreTablesOf task.now names.now) }
{
    if let Some(tables) = known {
        return Ok(tables);
    }
    let index = Index::new(alloc, task)?;
    let places = TableNames::new(alloc, names)?;
    Ok(Tables { index, places })
}

/// A reader of one step file, which is fed in pieces. It keeps what the lines so far have made, and the bytes of one
/// unfinished line.
#[derive(Drop)]
pub struct StepReader {
    alloc: Global,
    tallest: Option<u64>,
    tables: Option<Tables>,
    lines: ReadLines,
    fault: Option<ReadFault>,
}

impl StepReader {
    /// A reader that was fed nothing. It refuses formulas that are taller than `tallest`.
    pub fn new(alloc: Global, tallest: Option<u64>) -> StepReader
        ensures fed { (s : List Tree) (task : Task) (names : List NameEntry)
            → IsFed s task names [] result }
        ensures tallest { result.tallest ≡ tallest }
    {
        StepReader {
            alloc,
            tallest,
            tables: None,
            lines: no_lines(alloc),
            fault: None,
        }
    }

    // Reads the lines that end in a piece.
    fn read_piece(
        &mut self,
        store: &mut Store,
        task: &Task,
        names: &[NameEntry],
        piece: &[u8],
    ) -> Result<(), ReadFault>
        requires task { TaskHeld store.old task.now }
        requires tables { IfSome self.old.tables (AreTablesOf task.now names.now) }
        requires lines { (bytes : List ℕ) × AreBytesRead (task_at store.old task.now) names.now
            self.old.tallest store.old bytes self.old.lines }
        ensures read { OnOk result ((bytes : List ℕ)
            → AreBytesRead (task_at store.old task.now) names.now self.old.tallest store.old bytes
            self.old.lines
            → AreBytesRead (task_at store.old task.now) names.now self.old.tallest store.new
            (bytes ++ piece.now) self.new.lines) }
        ensures fault { IfErr result (λ e. (bytes : List ℕ)
            → AreBytesRead (task_at store.old task.now) names.now self.old.tallest store.old bytes
            self.old.lines
            → IsLineFault (task_at store.old task.now) names.now self.old.tallest
            (ended_lines (bytes ++ piece.now)) e) }
        ensures tables { IfSome self.new.tables (AreTablesOf task.now names.now) }
        ensures same { (self.new.tallest ≡ self.old.tallest) × (self.new.fault ≡ self.old.fault) }
        ensures grows { Grows store.old store.new }
    {
        let tables = tables_of(self.alloc, self.tables.take(), task, names)?;
        let x = Reader {
            task,
            index: &tables.index,
            table: names,
            names: &tables.places,
            tallest: self.tallest,
        };
        let read = read_piece(self.alloc, store, &x, &mut self.lines, piece);
        self.tables = Some(tables);
        read
    }

    /// Takes the next piece of the file: refused at once where, among the lines that a line feed has ended so far, one is
    /// wrong, with the first such line. The task and the names are those of the first piece, and the store holds what it held
    /// after it. After a refusal every later call is refused the same.
    pub fn feed(
        &mut self,
        store: &mut Store,
        task: &Task,
        names: &[NameEntry],
        piece: &[u8],
    ) -> Result<(), ReadFault>
        requires task { TaskHeld store.old task.now }
        requires fed { (bytes : List ℕ) × IsFed store.old task.now names.now bytes self.old }
        ensures fed { (bytes : List ℕ) → IsFed store.old task.now names.now bytes self.old
            → IsFed store.new task.now names.now (bytes ++ piece.now) self.new }
        ensures right { OnOk result ((bytes : List ℕ)
            → IsFed store.old task.now names.now bytes self.old
            → (line : ℕ) → FirstWrongAmong (task_at store.old task.now) names.now self.old.tallest
            (ended_lines (bytes ++ piece.now)) line → ⊥) }
        ensures wrong { IfErr result (λ e. (bytes : List ℕ)
            → IsFed store.old task.now names.now bytes self.old
            → IsLineFault (task_at store.old task.now) names.now self.old.tallest
            (ended_lines (bytes ++ piece.now)) e) }
        ensures answer { result ≡ answer_of self.new.fault }
        ensures again { (e : ReadFault) → self.old.fault ≡ Some e → result ≡ Err e }
        ensures tallest { self.new.tallest ≡ self.old.tallest }
        ensures grows { Grows store.old store.new }
    {
        if let Some(fault) = self.fault {
            return Err(fault);
        }
        match self.read_piece(store, task, names, piece) {
            Ok(()) => Ok(()),
            Err(fault) => {
                self.fault = Some(fault);
                Err(fault)
            }
        }
    }

    // All lines of the file: a last one that no line feed ends is read as if one did.
    fn all_lines(
        mut self,
        store: &mut Store,
        task: &Task,
        names: &[NameEntry],
    ) -> Result<ReadLines, ReadFault>
        requires task { TaskHeld store.old task.now }
        requires fed { (bytes : List ℕ) × IsFed store.old task.now names.now bytes self }
        ensures read { IfOk result (λ l. (bytes : List ℕ)
            → IsFed store.old task.now names.now bytes self
            → AreLinesRead (task_at store.old task.now) names.now self.tallest store.new
            (lines_of bytes) l) }
        ensures fault { IfErr result (λ e. (bytes : List ℕ)
            → IsFed store.old task.now names.now bytes self
            → IsReadFault (task_at store.old task.now) names.now self.tallest bytes e) }
        ensures again { (e : ReadFault) → self.fault ≡ Some e → result ≡ Err e }
        ensures grows { Grows store.old store.new }
    {
        if let Some(fault) = self.fault {
            return Err(fault);
        }
        if self.lines.rest.is_empty() {
            return Ok(self.lines);
        }
        match self.read_piece(store, task, names, b"\n") {
            Ok(()) => Ok(self.lines),
            Err(fault) => Err(fault),
        }
    }

    /// The steps of the file, or its first wrong line. The task, the names and the store are as for `feed`.
    pub fn finish(
        self,
        store: &mut Store,
        task: &Task,
        names: &[NameEntry],
    ) -> Result<Vec<Step>, ReadFault>
        requires task { TaskHeld store.old task.now }
        requires fed { (bytes : List ℕ) × IsFed store.old task.now names.now bytes self }
        ensures steps { IfOk result (λ v. (bytes : List ℕ)
            → IsFed store.old task.now names.now bytes self
            → StepsOf (task_at store.old task.now) names.now self.tallest bytes
            (steps_at store.new v.items)) }
        ensures closes { IfOk result (λ v. Closes (task_at store.old task.now)
            (steps_at store.new v.items)) }
        ensures held { IfOk result (λ v. StepsHeld store.new v.items) }
        ensures fault { IfErr result (λ e. (bytes : List ℕ)
            → IsFed store.old task.now names.now bytes self
            → IsReadFault (task_at store.old task.now) names.now self.tallest bytes e) }
        ensures again { (e : ReadFault) → self.fault ≡ Some e → result ≡ Err e }
        ensures grows { Grows store.old store.new }
    {
        match self.all_lines(store, task, names) {
            Ok(lines) => last_steps(store, task, lines),
            Err(fault) => Err(fault),
        }
    }
}

// The most bytes that a reader is fed at once.
const PIECE_SIZE: usize = 65_536;

// Feeds the bytes of a file in pieces, up to the first one that is refused.
fn feed_pieces(
    reader: &mut StepReader,
    store: &mut Store,
    task: &Task,
    names: &[NameEntry],
    bytes: &[u8],
) -> Result<(), ReadFault>
    requires task { TaskHeld store.old task.now }
    requires fed { IsFed store.old task.now names.now [] reader.old }
    ensures fed { OnOk result (IsFed store.new task.now names.now bytes.now reader.new) }
    ensures fault { IfErr result (IsReadFault (task_at store.old task.now) names.now
        reader.old.tallest bytes.now) }
    ensures tallest { reader.new.tallest ≡ reader.old.tallest }
    ensures grows { Grows store.old store.new }
{
    let mut rest = bytes;
    while !rest.is_empty() {
        let (piece, others) = rest.split_at(rest.len().min(PIECE_SIZE));
        reader.feed(store, task, names, piece)?;
        rest = others;
    }
    Ok(())
}

/// The steps of a whole file, or its first wrong line. It refuses formulas that are taller than `tallest`.
pub fn read_whole(
    alloc: Global,
    store: &mut Store,
    task: &Task,
    names: &[NameEntry],
    tallest: Option<u64>,
    bytes: &[u8],
) -> Result<Vec<Step>, ReadFault>
    requires { TaskHeld store.old task.now }
    ensures steps { IfOk result (λ v. StepsOf (task_at store.old task.now) names.now tallest
        bytes.now (steps_at store.new v.items)) }
    ensures closes { IfOk result (λ v. Closes (task_at store.old task.now)
        (steps_at store.new v.items)) }
    ensures held { IfOk result (λ v. StepsHeld store.new v.items) }
    ensures fault { IfErr result (IsReadFault (task_at store.old task.now) names.now tallest
        bytes.now) }
    ensures complete { IfErr result (λ e. (steps : List StepTree)
        → StepsOf (task_at store.old task.now) names.now tallest bytes.now steps → e ≡ Memory) }
    ensures grows { Grows store.old store.new }
{
    let mut reader = StepReader::new(alloc, tallest);
    match feed_pieces(&mut reader, store, task, names, bytes) {
        Ok(()) => reader.finish(store, task, names),
        Err(fault) => Err(fault),
    }
}
