// The bytes that a line stands for.
use std::alloc::{AllocError, Global};

// The byte that an escaped letter stands for.
fn escaped_byte(letter: u8) -> u8 {
    match letter {
        b'n' => b'\n',
        b't' => b'\t',
        b'r' => b'\r',
        b'f' => 12,
        b'x' => 255,
        _ => letter,
    }
}

/// The bytes of a line. `\n`, `\t`, `\r`, `\f` and `\x` (the byte 255) stand for one byte each; `\2` doubles all bytes after
/// the last `\(`, which stands for none; a backslash before another byte stands for that byte.
pub(crate) fn bytes_of(alloc: Global, line: &[u8]) -> Result<Vec<u8>, AllocError> {
    let mut out = Vec::new(alloc);
    let mut from = 0;
    let mut is_escaped = false;
    for letter in line {
        if !is_escaped && *letter == b'\\' {
            is_escaped = true;
            continue;
        }
        if is_escaped && *letter == b'(' {
            from = out.len();
        } else if is_escaped && *letter == b'2' {
            let more = Vec::from_slice(alloc, out.get(from..).unwrap_or(b""))?;
            out.extend_from_slice(&more)?;
        } else if is_escaped {
            out.push(escaped_byte(*letter))?;
        } else {
            out.push(*letter)?;
        }
        is_escaped = false;
    }
    Ok(out)
}
