// What was said before a row: symbols, the place of those of int.Int, and a driver.
use std::alloc::{AllocError, Global};
use tasks::MemoryLibrary;

/// The lines of symbols, the place of the first of int.Int or 0, and the driver's text.
#[derive(Drop)]
pub(crate) struct Given {
    pub symbols: Vec<Vec<u8>>,
    pub ints: usize,
    pub driver: Vec<u8>,
}

impl Given {
    /// Nothing.
    pub(crate) fn new(alloc: Global) -> Given {
        Given {
            symbols: Vec::new(alloc),
            ints: 0,
            driver: Vec::new(alloc),
        }
    }
}

/// The field of a line with a place, between blanks.
pub(crate) fn field(line: &[u8], place: usize) -> &[u8] {
    let mut at: usize = 0;
    let mut from = 0;
    for (i, byte) in line.iter().enumerate() {
        if *byte == b' ' {
            if at == place {
                return line.get(from..i).unwrap_or(b"");
            }
            at = at.saturating_add(1);
            from = i.saturating_add(1);
        }
    }
    if at == place {
        line.get(from..).unwrap_or(b"")
    } else {
        b""
    }
}

/// The number that digits write.
pub(crate) fn number_of(digits: &[u8]) -> usize {
    let mut number: usize = 0;
    for digit in digits {
        number = number
            .saturating_mul(10)
            .saturating_add(usize::from(digit.saturating_sub(b'0')));
    }
    number
}

/// The bytes of a line: `\n` stands for a line's end, a backslash before another byte for that byte.
pub(crate) fn bytes_of(alloc: Global, line: &[u8]) -> Result<Vec<u8>, AllocError> {
    let mut out = Vec::new(alloc);
    let mut is_escaped = false;
    for letter in line {
        if !is_escaped && *letter == b'\\' {
            is_escaped = true;
        } else {
            out.push(if is_escaped && *letter == b'n' {
                b'\n'
            } else {
                *letter
            })?;
            is_escaped = false;
        }
    }
    Ok(out)
}

/// The library of the driver's one file, which is named `d`.
pub(crate) fn library(alloc: Global, driver: &[u8]) -> Result<MemoryLibrary, AllocError> {
    let mut files = Vec::new(alloc);
    let name = String::from_str(alloc, "d")?;
    files.push((name, Vec::from_slice(alloc, driver)?))?;
    Ok(MemoryLibrary::new(alloc, files, Vec::new(alloc)))
}

/// The theories that a driver may name.
pub(crate) fn theories(alloc: Global) -> Result<Vec<(String, Vec<String>)>, AllocError> {
    let mut found = Vec::new(alloc);
    for path in ["int.Int", "S", "T"] {
        found.push((String::from_str(alloc, path)?, Vec::new(alloc)))?;
    }
    Ok(found)
}
