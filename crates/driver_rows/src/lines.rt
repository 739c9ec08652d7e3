// The bytes that a line stands for.
use std::alloc::{AllocError, Global};

// The byte that an escaped letter stands for.
fn escaped_byte(letter: u8) -> u8 {
    match letter {
        b'n' => b'\n',
        b't' => b'\t',
        b'r' => b'\r',
        b'x' => 255,
        b'|' => 1,
        _ => letter,
    }
}

/// The bytes of a line. `\n`, `\t`, `\r`, `\x` (the byte 255) and `\|` (the byte 1) stand for one byte each; a backslash before
/// another byte stands for that byte.
pub(crate) fn bytes_of(alloc: Global, line: &[u8]) -> Result<Vec<u8>, AllocError> {
    let mut out = Vec::new(alloc);
    let mut is_escaped = false;
    for letter in line {
        if !is_escaped && *letter == b'\\' {
            is_escaped = true;
            continue;
        }
        out.push(if is_escaped {
            escaped_byte(*letter)
        } else {
            *letter
        })?;
        is_escaped = false;
    }
    Ok(out)
}
