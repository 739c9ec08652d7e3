// What a driver is read over: the files of a line, and symbols and propositions of a few theories.
use outside::{MemoryLibrary, Seq, Text};
use std::alloc::{AllocError, Global};
use tasks::{Signature, SymbolInfo, SymbolKind};
use trees::TermId;

// Theory, name, kind, number of type variables, number of arguments.
type Entry = (&'static str, &'static str, SymbolKind, usize, usize);

static ENTRIES: [Entry; 19] = [
    ("BuiltIn", "int", SymbolKind::Kind, 0, 0),
    ("int.Int", "-_", SymbolKind::Function, 0, 1),
    ("int.Int", "+", SymbolKind::Function, 0, 2),
    ("int.Int", "-", SymbolKind::Function, 0, 2),
    ("int.Int", "*", SymbolKind::Function, 0, 2),
    ("int.Int", "<", SymbolKind::Predicate, 0, 2),
    ("int.Int", "<=", SymbolKind::Predicate, 0, 2),
    ("int.Int", ">", SymbolKind::Predicate, 0, 2),
    ("int.Int", ">=", SymbolKind::Predicate, 0, 2),
    ("T", "t", SymbolKind::Kind, 1, 0),
    ("T", "f", SymbolKind::Function, 0, 1),
    ("T", "S.f", SymbolKind::Function, 0, 10),
    ("T", "S.C'1", SymbolKind::Projection, 0, 1),
    ("T", "!_", SymbolKind::Function, 0, 0),
    ("T", "S.g", SymbolKind::Projection, 0, 1),
    ("T", "h", SymbolKind::Projection, 0, 1),
    ("T", "C'1", SymbolKind::Projection, 0, 1),
    ("T", "S.C", SymbolKind::Constructor, 0, 1),
    ("T", "mk_r", SymbolKind::Constructor, 0, 2),
];

// Known theories, each with its propositions. The first of a path counts.
static KNOWN: [(&str, &[&str]); 3] = [
    ("int.Int", &["Mul_comm"]),
    ("T", &["a", "S.a", "*", "S.-_", "!_", "!="]),
    ("T", &["b"]),
];

fn symbol_of(alloc: Global, entry: &Entry) -> Result<SymbolInfo, AllocError> {
    let (theory, name, kind, vars, count) = *entry;
    let mut args = Seq::new(alloc);
    for _ in 0..count {
        args.push(TermId(0))?;
    }
    Ok(SymbolInfo {
        theory: Text::from_slice(alloc, theory.as_bytes())?,
        name: Text::from_slice(alloc, name.as_bytes())?,
        kind,
        vars,
        args,
        result: None,
    })
}

/// The symbols.
pub(crate) fn signature(alloc: Global) -> Result<Signature, AllocError> {
    let mut symbols = Seq::new(alloc);
    for entry in &ENTRIES {
        symbols.push(symbol_of(alloc, entry)?)?;
    }
    Ok(Signature {
        symbols,
        ints: None,
    })
}

fn strings(alloc: Global, values: &[&str]) -> Result<Vec<String>, AllocError> {
    let mut made = Vec::new(alloc);
    for value in values {
        made.push(String::from_str(alloc, value)?)?;
    }
    Ok(made)
}

/// The theories, with their propositions.
pub(crate) fn theories(alloc: Global) -> Result<Vec<(String, Vec<String>)>, AllocError> {
    let mut found = Vec::new(alloc);
    for (path, names) in &KNOWN {
        let names = strings(alloc, names)?;
        found.push((String::from_str(alloc, path)?, names))?;
    }
    Ok(found)
}

// The place of the first byte of a kind, or the number of all.
fn place_of(bytes: &[u8], wanted: u8) -> usize {
    for (place, byte) in bytes.iter().enumerate() {
        if *byte == wanted {
            return place;
        }
    }
    bytes.len()
}

// Puts a file after others: its name, a colon and its text.
fn push_file(
    alloc: Global,
    files: &mut Vec<(String, Vec<u8>)>,
    file: &[u8],
) -> Result<(), AllocError> {
    let colon = place_of(file, b':');
    let name = String::from_utf8_lossy(alloc, file.get(..colon).unwrap_or(b""))?;
    let text = file.get(colon.saturating_add(1)..).unwrap_or(b"");
    files.push((name, Vec::from_slice(alloc, text)?))?;
    Ok(())
}

// The files of a line, between which a byte 1 stands.
fn files_of(alloc: Global, bytes: &[u8]) -> Result<Vec<(String, Vec<u8>)>, AllocError> {
    let mut files = Vec::new(alloc);
    let mut from = 0;
    for (at, byte) in bytes.iter().enumerate() {
        if *byte == 1 {
            push_file(alloc, &mut files, bytes.get(from..at).unwrap_or(b""))?;
            from = at.saturating_add(1);
        }
    }
    if !bytes.is_empty() {
        push_file(alloc, &mut files, bytes.get(from..).unwrap_or(b""))?;
    }
    Ok(files)
}

/// The name of the first file, or nothing.
pub(crate) fn driver_name(bytes: &[u8]) -> &[u8] {
    bytes.get(..place_of(bytes, b':')).unwrap_or(b"")
}

/// The files, of which the fetch with a number fails, counted from 1; none where it is 0. Where `is_long`, after them the file
/// `e`, whose blanks are one more than a file may have bytes.
pub(crate) fn library(
    alloc: Global,
    bytes: &[u8],
    failing: u8,
    is_long: bool,
) -> Result<MemoryLibrary, AllocError> {
    let mut files = files_of(alloc, bytes)?;
    if is_long {
        let name = String::from_str(alloc, "e")?;
        files.push((name, vec![in alloc; 32u8; 67_108_865]?))?;
    }
    let mut fetches = Vec::new(alloc);
    if failing > 0 {
        fetches.push(u64::from(failing) - 1)?;
    }
    Ok(MemoryLibrary::new(alloc, files, fetches))
}
