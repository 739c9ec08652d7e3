// A driver or why there is none, as text.
use drivers::driver_items::{Piece, Printer};
use drivers::driver_parts::{Driver, DriverFault};
use std::alloc::{AllocError, Global};

/// Bytes, a line's end as `\n`.
pub(crate) fn put_bytes(out: &mut String, bytes: &[u8]) -> Result<(), AllocError> {
    for byte in bytes {
        if *byte == b'\n' {
            out.push_str("\\n")?;
        } else {
            out.push(char::from(*byte))?;
        }
    }
    Ok(())
}

/// A word with a number after it.
pub(crate) fn put_number(
    alloc: Global,
    out: &mut String,
    word: &str,
    number: usize,
) -> Result<(), AllocError> {
    let digits = number.to_string(alloc)?;
    out.push_str(word)?;
    out.push_str(digits.as_str())
}

/// The pieces of a template, its arguments as numbers in braces.
pub(crate) fn put_pieces(
    alloc: Global,
    out: &mut String,
    pieces: &[Piece],
) -> Result<(), AllocError> {
    for piece in pieces {
        match piece {
            Piece::Literal(text) => put_bytes(out, text.as_slice())?,
            Piece::Argument(number) => {
                put_number(alloc, out, "{", *number)?;
                out.push_str("}")?;
            }
        }
    }
    Ok(())
}

fn put_removals(out: &mut String, driver: &Driver) -> Result<(), AllocError> {
    for (path, name) in driver.removed.as_slice() {
        out.push_str(" -")?;
        put_bytes(out, path.as_slice())?;
        out.push_str(":")?;
        put_bytes(out, name.as_slice())?;
    }
    for path in driver.all_removed.as_slice() {
        out.push_str(" --")?;
        put_bytes(out, path.as_slice())?;
    }
    Ok(())
}

fn put_templates(alloc: Global, out: &mut String, driver: &Driver) -> Result<(), AllocError> {
    for (symbol, pieces) in driver.templates.as_slice() {
        put_number(alloc, out, " ", *symbol)?;
        out.push_str("=")?;
        put_pieces(alloc, out, pieces.as_slice())?;
    }
    if let Some(text) = &driver.int_template {
        out.push_str(" int=")?;
        put_bytes(out, text.as_slice())?;
    }
    if let Some(pieces) = &driver.eq_template {
        out.push_str(" eq=")?;
        put_pieces(alloc, out, pieces.as_slice())?;
    }
    Ok(())
}

fn put_preludes(out: &mut String, driver: &Driver) -> Result<(), AllocError> {
    for (theory, text) in driver.preludes.as_slice() {
        out.push_str(" '")?;
        if let Some(path) = theory {
            put_bytes(out, path.as_slice())?;
            out.push_str(":")?;
        }
        put_bytes(out, text.as_slice())?;
    }
    Ok(())
}

/// The number of the next file, the printer, the numbers of the transformations, removals, templates and preludes.
pub(crate) fn put_driver(
    alloc: Global,
    out: &mut String,
    driver: &Driver,
) -> Result<(), AllocError> {
    put_number(alloc, out, "", driver.next_file)?;
    out.push_str(match driver.printer {
        Printer::Smt => " smt",
        Printer::Tff => " tff",
    })?;
    for stage in driver.stages.as_slice() {
        put_number(alloc, out, " #", *stage as usize)?;
    }
    put_removals(out, driver)?;
    put_templates(alloc, out, driver)?;
    put_preludes(out, driver)
}

/// The number or word of a fault, its file, and its byte.
pub(crate) fn put_fault(
    alloc: Global,
    out: &mut String,
    fault: DriverFault,
) -> Result<(), AllocError> {
    let (word, file, byte) = match fault {
        DriverFault::Memory => return Err(AllocError),
        DriverFault::Absent { file } => ("absent ", file, None),
        DriverFault::ReadFault { file } => ("unread ", file, None),
        DriverFault::TooLong { file } => ("15 ", file, None),
        DriverFault::DriverSyntax { file, byte } => ("50 ", file, Some(byte)),
        DriverFault::UnknownTransformation { file, byte } => ("51 ", file, Some(byte)),
        DriverFault::BadTemplate { file, byte } => ("52 ", file, Some(byte)),
        DriverFault::UnknownSymbol { file, byte } => ("53 ", file, Some(byte)),
        DriverFault::ImportCycle { file, byte } => ("54 ", file, Some(byte)),
        DriverFault::UnknownPrinter { file, byte } => ("55 ", file, Some(byte)),
    };
    put_number(alloc, out, word, file)?;
    match byte {
        Some(byte) => put_number(alloc, out, " ", byte),
        None => Ok(()),
    }
}
