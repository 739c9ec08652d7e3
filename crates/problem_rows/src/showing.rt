// Names and faults as text.
use name_tables::name_entries::NameEntry;
use printed_problems::PrintFault;
use std::alloc::{AllocError, Global};

/// Bytes, a line's end as `\n`.
pub(crate) fn put_bytes(out: &mut String, bytes: &[u8]) -> Result<(), AllocError> {
    for byte in bytes {
        if *byte == b'\n' {
            out.push_str("\\n")?;
        } else {
            out.push(char::from(*byte))?;
        }
    }
    Ok(())
}

/// Each name with what it stands for, and the places of the types.
pub(crate) fn put_names(
    alloc: Global,
    out: &mut String,
    names: &[NameEntry],
) -> Result<(), AllocError> {
    for entry in names {
        put_bytes(out, entry.name.as_slice())?;
        let shown = format!(in alloc; " {:?}", entry.symbol)?;
        out.push_str(shown.as_str())?;
        for place in entry.types.as_slice() {
            let shown = format!(in alloc; " {place}")?;
            out.push_str(shown.as_str())?;
        }
        out.push_str(";")?;
    }
    Ok(())
}

/// The number of a fault, and what it is of.
pub(crate) fn put_fault(
    alloc: Global,
    out: &mut String,
    fault: PrintFault,
) -> Result<(), AllocError> {
    let shown = match fault {
        PrintFault::Memory => return Err(AllocError),
        PrintFault::Polymorphic { decl } => format!(in alloc; "80 {decl}")?,
        PrintFault::Unprintable { decl } => format!(in alloc; "81 {decl}")?,
        PrintFault::NoSyntax { symbol } => format!(in alloc; "82 {symbol}")?,
    };
    out.push_str(shown.as_str())
}
