// The answer to a line: what comes after its first two letters, read as the first one says.
use crate::given::{driver_name, library, signature, theories};
use crate::lines::bytes_of;
use crate::showing::{put_bytes, put_driver, put_fault, put_number, put_pieces};
use drivers::driver_files::read_driver;
use drivers::driver_items::template_of;
use drivers::driver_tokens::{DriverSyntaxFault, read_lines, string_value};
use outside::MemoryLibrary;
use std::alloc::{AllocError, Global};

/// What a driver gives, which is the first of the files.
fn put_read(
    alloc: Global,
    out: &mut String,
    bytes: &[u8],
    files: &mut MemoryLibrary,
) -> Result<(), AllocError> {
    let name = String::from_utf8_lossy(alloc, driver_name(bytes))?;
    let sig = signature(alloc)?;
    let known = theories(alloc)?;
    match read_driver(alloc, files, &sig, &known, name.as_str()) {
        Ok(driver) => put_driver(alloc, out, &driver),
        Err(fault) => put_fault(alloc, out, fault),
    }
}

/// The same over the files of a line, of which the fetch with a number fails.
fn put_line(
    alloc: Global,
    out: &mut String,
    bytes: &[u8],
    failing: u8,
    is_long: bool,
) -> Result<(), AllocError> {
    let mut files = library(alloc, bytes, failing, is_long)?;
    put_read(alloc, out, bytes, &mut files)
}

/// How many lines a text has, or where it goes wrong.
fn put_count(alloc: Global, out: &mut String, text: &[u8]) -> Result<(), AllocError> {
    match read_lines(alloc, text) {
        Ok(its) => put_number(alloc, out, "", its.lines.len()),
        Err(DriverSyntaxFault::Syntax { byte }) => put_number(alloc, out, "fault ", byte),
        Err(DriverSyntaxFault::Memory) => Err(AllocError),
    }
}

/// What a string says.
fn put_string(alloc: Global, out: &mut String, inside: &[u8]) -> Result<(), AllocError> {
    let value = string_value(alloc, inside)?;
    put_bytes(out, value.as_slice())
}

/// The pieces of a template of so many arguments.
fn put_template(alloc: Global, out: &mut String, text: &[u8], arity: u8) -> Result<(), AllocError> {
    match template_of(alloc, text, usize::from(arity))? {
        Some(pieces) => put_pieces(alloc, out, pieces.as_slice()),
        None => out.push_str("none"),
    }
}

fn put_answer(
    alloc: Global,
    out: &mut String,
    letter: u8,
    number: u8,
    bytes: &[u8],
) -> Result<(), AllocError> {
    match letter {
        b'd' => put_line(alloc, out, bytes, number, false),
        b'b' => put_line(alloc, out, bytes, number, true),
        b'l' => put_count(alloc, out, bytes),
        b's' => put_string(alloc, out, bytes),
        b't' => put_template(alloc, out, bytes, number),
        _ => out.push_str("no letter"),
    }
}

/// The answer to a line.
pub(crate) fn answer(alloc: Global, line: &str) -> Result<String, AllocError> {
    let mut out = String::new(alloc);
    if let [letter, number, rest @ ..] = line.as_bytes() {
        let bytes = bytes_of(alloc, rest)?;
        put_answer(
            alloc,
            &mut out,
            *letter,
            number.saturating_sub(b'0'),
            &bytes,
        )?;
    }
    Ok(out)
}
