// A driver's file with its imports in place.
// It depends on the fetched files and the parts of drivers; nothing of the crate depends on it.
ghost use Rattle.std.specs.Prelude.{[], ◌∷◌, ◌++◌, ◌≡◌, List, ℕ, None, IfOk, OnOk, map};
ghost use Rattle.drivers.specs.driver_tokens.File.{lines_in};
ghost use Rattle.drivers.specs.driver_tokens.Tokens.{lexeme_in};
ghost use Rattle.drivers.specs.driver_parts.Items.{item_of};
ghost use Rattle.drivers.specs.driver_parts.Steps as steps;
ghost use Rattle.drivers.specs.driver_files.Calls.{BytesMeaning, FileMeaning, ImportMeaning, IsImport, LinesMeaning, OneLineMeaning, WholeMeaning, next_of, place_within, place_with, with_progress};
ghost use Rattle.drivers.specs.driver_files.Calls as calls;
ghost use Rattle.drivers.specs.driver_files.Reading.{ReadsAs, driver_named};
ghost use Rattle.drivers.specs.driver_files.Reading as spec;

use crate::driver_files::fetching::{fetch_file, lines_of};
use crate::driver_files::names::{is_among, is_cycle, name_from};
use crate::driver_items::{name_of, part, string_of};
use crate::driver_parts::{
    Driver, DriverContext, DriverFault, DriverParts, FileText, driver_of, no_parts, take_line,
};
use crate::driver_tokens::{DriverTerminal, DriverText, DriverToken, DriverWord, Heading};
use outside::{Library, Seq, Text};
use std::alloc::{AllocError, Global};
use tasks::Signature;

// How many files may be read at once besides the driver's own.
const ROOM: usize = 31;

/// How far a driver is read.
#[derive(Drop)]
pub struct Progress {
    pub parts: DriverParts,
    /// The files that were read whole.
    pub whole: Seq<Text>,
    /// The number of the next file.
    pub next: usize,
    /// The length of the file that was read whole last.
    pub length: usize,
}

/// A file that is being read: its number, its text, its name, and how many more may be.
#[derive(Clone, Copy)]
pub struct OpenFile<'a> {
    pub file: usize,
    pub text: &'a [u8],
    pub name: &'a str,
    pub room: usize,
}

/// The string of an import.
fn import_of(line: &[DriverToken]) -> Option<DriverToken>
    ensures { IsImport line.now result }
{
    if line.len() < 2 {
        return None;
    }
    match line[0].terminal {
        DriverTerminal::Word(DriverWord::Heading(Heading::Import)) => Some(line[1]),
        _ => None,
    }
}

fn is_theory(terminal: DriverTerminal) -> bool
    ensures { result ≡ calls.is_theory terminal }
{
    match terminal {
        DriverTerminal::Word(DriverWord::Theory) => true,
        _ => false,
    }
}

fn is_end(terminal: DriverTerminal) -> bool
    ensures { result ≡ calls.is_end terminal }
{
    match terminal {
        DriverTerminal::Word(DriverWord::End) => true,
        _ => false,
    }
}

/// The block in which what comes after a line is.
fn block_after(
    alloc: Global,
    text: &[u8],
    block: Option<Text>,
    line: &[DriverToken],
) -> Result<Option<Text>, AllocError>
    ensures { IfOk result (λ its. its ≡ steps.block_after block (item_of
        (map (lexeme_in text.now) line.now))) }
{
    if line.len() == 0 {
        return Ok(block);
    }
    if line.len() == 1 {
        if is_end(line[0].terminal) {
            return Ok(None);
        }
        return Ok(block);
    }
    if is_theory(line[0].terminal) {
        let path = name_of(alloc, text, part(line, 1, line.len()))?;
        return Ok(Some(path));
    }
    Ok(block)
}

/// The file that was opened last was read whole.
fn close_file(
    opened: &mut Seq<Text>,
    text: &[u8],
    progress: &mut Progress,
) -> Result<(), AllocError>
    ensures { (before : List (List ℕ)) (name : List ℕ) → opened.old ≡ before ++ name ∷ [] → IfOk
        result (λ u. (opened.new ≡ before) × (progress.new ≡ spec.finished name text.now
        progress.old)) }
{
    if let Some(name) = opened.pop() {
        progress.whole.push(name)?;
        progress.length = text.len();
    }
    Ok(())
}

/// An imported file, unless it was read whole before.
#[cycle(files)]
fn read_import<L: Library>(
    lib: &mut L,
    context: DriverContext<'_>,
    at: OpenFile<'_>,
    byte: usize,
    name: &str,
    opened: &mut Seq<Text>,
    progress: &mut Progress,
) -> Result<(), DriverFault>
    ensures answers { ReadsAs (ImportMeaning context.entry.symbols.now context.entry.theories.now
        (place_with at.entry opened.old) byte name.now progress.old) progress.old.next
        next_of (L.state lib.old) (L.state lib.new) (with_progress result progress.new) }
    ensures opened { OnOk result (opened.new ≡ opened.old) }
{
    if is_cycle(at.room, opened.as_slice(), name.as_bytes()) {
        return Err(DriverFault::ImportCycle {
            file: at.file,
            byte,
        });
    }
    if is_among(progress.whole.as_slice(), name.as_bytes()) {
        return Ok(());
    }
    let room = at.room.saturating_sub(1);
    read_file(lib, context, name, room, opened, progress)
}

/// A line of a file.
#[cycle(files)]
fn read_line<L: Library>(
    lib: &mut L,
    context: DriverContext<'_>,
    at: OpenFile<'_>,
    block: &Option<Text>,
    tokens: &[DriverToken],
    opened: &mut Seq<Text>,
    progress: &mut Progress,
) -> Result<(), DriverFault>
    ensures answers { ReadsAs (OneLineMeaning context.entry.symbols.now context.entry.theories.now
        (place_with at.entry opened.old) block.now (map (lexeme_in at.entry.text.now) tokens.now)
        progress.old) progress.old.next next_of (L.state lib.old) (L.state lib.new)
        (with_progress result progress.new) }
    ensures opened { OnOk result (opened.new ≡ opened.old) }
{
    match import_of(tokens) {
        Some(string) => {
            let value = string_of(context.alloc, at.text, string)?;
            let its = name_from(context.alloc, at.name.as_bytes(), value.as_slice())?;
            read_import(
                lib,
                context,
                at,
                string.start,
                its.as_str(),
                opened,
                progress,
            )
        }
        None => {
            let text = FileText {
                file: at.file,
                text: at.text,
            };
            take_line(context, text, block, &mut progress.parts, tokens)
        }
    }
}

/// The lines of a file, in order.
#[cycle(files)]
fn read_lines<L: Library>(
    lib: &mut L,
    context: DriverContext<'_>,
    at: OpenFile<'_>,
    its: &DriverText,
    opened: &mut Seq<Text>,
    progress: &mut Progress,
) -> Result<(), DriverFault>
    ensures answers { ReadsAs (LinesMeaning context.entry.symbols.now context.entry.theories.now
        (place_with at.entry opened.old) None (lines_in at.entry.text.now its.now) progress.old)
        progress.old.next next_of (L.state lib.old) (L.state lib.new)
        (with_progress result progress.new) }
    ensures opened { OnOk result (opened.new ≡ opened.old) }
{
    let mut block = None;
    for line in &its.lines {
        let tokens = part(&its.tokens, line.first, line.end);
        read_line(lib, context, at, &block, tokens, opened, progress)?;
        block = block_after(context.alloc, at.text, block, tokens)?;
    }
    Ok(())
}

/// The lines of a file, which then was read whole.
#[cycle(files)]
fn read_whole<L: Library>(
    lib: &mut L,
    context: DriverContext<'_>,
    at: OpenFile<'_>,
    its: &DriverText,
    opened: &mut Seq<Text>,
    progress: &mut Progress,
) -> Result<(), DriverFault>
    ensures answers { ReadsAs (WholeMeaning context.entry.symbols.now context.entry.theories.now
        (place_within at.entry opened.old) at.entry.text.now
        (lines_in at.entry.text.now its.now) progress.old) progress.old.next next_of
        (L.state lib.old) (L.state lib.new) (with_progress result progress.new) }
    ensures opened { OnOk result (opened.new ≡ opened.old) }
{
    opened.push(Text::from_slice(context.alloc, at.name.as_bytes())?)?;
    read_lines(lib, context, at, its, opened, progress)?;
    close_file(opened, at.text, progress)?;
    Ok(())
}

/// The bytes of a file: its whole syntax before its lines.
#[cycle(files)]
fn read_bytes<L: Library>(
    lib: &mut L,
    context: DriverContext<'_>,
    at: OpenFile<'_>,
    opened: &mut Seq<Text>,
    progress: &mut Progress,
) -> Result<(), DriverFault>
    ensures answers { ReadsAs (BytesMeaning context.entry.symbols.now context.entry.theories.now
        (place_within at.entry opened.old) at.entry.text.now progress.old) progress.old.next
        next_of (L.state lib.old) (L.state lib.new) (with_progress result progress.new) }
    ensures opened { OnOk result (opened.new ≡ opened.old) }
{
    let its = lines_of(context.alloc, at.file, at.text)?;
    read_whole(lib, context, at, &its, opened, progress)
}

/// A file, which is fetched with the next number.
#[cycle(files)]
fn read_file<L: Library>(
    lib: &mut L,
    context: DriverContext<'_>,
    name: &str,
    room: usize,
    opened: &mut Seq<Text>,
    progress: &mut Progress,
) -> Result<(), DriverFault>
    ensures answers { ReadsAs (FileMeaning context.entry.symbols.now context.entry.theories.now room
        opened.old name.now progress.old) progress.old.next next_of (L.state lib.old)
        (L.state lib.new) (with_progress result progress.new) }
    ensures opened { OnOk result (opened.new ≡ opened.old) }
{
    let file = progress.next;
    if file == usize::MAX {
        // The names of so many files find no memory.
        return Err(DriverFault::Memory);
    }
    let bytes = fetch_file(lib, file, name)?;
    progress.next = file + 1;
    let at = OpenFile {
        file,
        text: &bytes,
        name,
        room,
    };
    read_bytes(lib, context, at, opened, progress)
}

/// The driver of how far it is read, if a printer was named.
fn finish(progress: Progress) -> Result<Driver, DriverFault>
    ensures { calls.FinishesDriver progress result }
{
    let Progress {
        parts,
        whole: _,
        next,
        length,
    } = progress;
    match parts.printer {
        Some(printer) => Ok(driver_of(parts, printer, next)),
        None => Err(DriverFault::UnknownPrinter {
            file: 1,
            byte: length,
        }),
    }
}

/// The driver of a file, with its imports in place, over a signature and the known theories with their propositions.
///
/// A file is fetched with the next number from 1 on, unless it was read whole before. The name of an imported file is the
/// folder of the importing one (its name up to the last `/`) with the string after it.
///
/// The first of these is answered, where one is in the way:
/// - `Absent`, `ReadFault`: the file with this number isn't there, or can't be read.
/// - `TooLong`: it has more than 67,108,864 bytes.
/// - `DriverSyntax`: the first byte at which no token begins or a token that no driver file allows there, before any item
///   of the file; the file's length, where it ends too early.
/// - `UnknownTransformation`, `UnknownPrinter`: the string at this byte names none; `UnknownPrinter` in file 1 at its
///   length, where no printer is named.
/// - `UnknownSymbol`: a known theory has no such name of this kind, at the name; then `BadTemplate`: the template at this
///   byte doesn't fit its symbol.
/// - `ImportCycle`: the imported file is being read, or 32 files are, at the string.
///
/// Else only want of memory refuses.
pub fn read_driver<L: Library>(
    alloc: Global,
    lib: &mut L,
    sig: &Signature,
    theories: &[(String, Vec<String>)],
    name: &str,
) -> Result<Driver, DriverFault>
    ensures { ReadsAs (driver_named sig.now.symbols theories.now name.now) 1 (λ d. d.next_file)
        (L.state lib.old) (L.state lib.new) result }
{
    let context = DriverContext {
        alloc,
        symbols: sig.symbols.as_slice(),
        theories,
    };
    let mut progress = Progress {
        parts: no_parts(alloc),
        whole: Seq::new(alloc),
        next: 1,
        length: 0,
    };
    let mut opened = Seq::new(alloc);
    read_file(lib, context, name, ROOM, &mut opened, &mut progress)?;
    finish(progress)
}
