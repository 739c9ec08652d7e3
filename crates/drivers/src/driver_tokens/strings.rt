// Strings in double quotes: where they end, and what they say.
// They depend on nothing; the lexer depends on where they end, and the reader of drivers on what they say.
ghost use Rattle.std.specs.Prelude.{false, ◌≡◌, ◌+◌, ◌≤◌, ◌++◌, length, drop, IfOk, IfSome};
ghost use Rattle.std.specs.Str.{is_utf8};
ghost use Rattle.tokens_why.specs.Gap.{at_from};
ghost use Rattle.drivers.specs.driver_tokens.Strings.{escaped, quoted, string_says};

use outside::Text;
use std::alloc::{AllocError, Global};

/// Where the string ends whose first quote is before a place: after its last quote, if there is one.
pub fn quote_end(text: &[u8], from: usize) -> Option<usize>
    requires { from ≤ length text.now }
    ensures place { result ≡ at_from from (quoted false (drop from text.now)) }
    ensures within { IfSome result (λ end. (from + 1 ≤ end) × (end ≤ length text.now)) }
{
    let mut escaped = false;
    let mut at = from;
    while at < text.len() {
        let byte = text[at];
        at += 1;
        if byte == b'"' && !escaped {
            return Some(at);
        }
        escaped = byte == b'\\' && !escaped;
    }
    None
}

/// Whether bytes are UTF-8.
pub fn is_utf8(bytes: &[u8]) -> bool
    ensures { result ≡ is_utf8 bytes.now }
{
    match std::str::from_utf8(bytes) {
        Ok(_) => true,
        Err(_) => false,
    }
}

/// What stands for an escaped byte.
fn push_escaped(value: &mut Vec<u8>, byte: u8) -> Result<(), AllocError>
    ensures { IfOk result (λ u. value.new.items ≡ value.old.items ++ escaped byte) }
{
    match byte {
        b'"' | b'\\' => value.push(byte)?,
        b'n' => value.push(b'\n')?,
        _ => {
            value.push(b'\\')?;
            value.push(byte)?
        }
    }
    Ok(())
}

/// What a string says, given the bytes between its quotes: `\"`, `\\` and `\n` are a quote, a backslash and a line feed, and
/// before any other byte a backslash stands for itself.
pub fn string_value(alloc: Global, inside: &[u8]) -> Result<Text, AllocError>
    ensures { IfOk result (λ t. t ≡ string_says inside.now) }
{
    let mut value = Vec::new(alloc);
    let mut escaped = false;
    for byte in inside {
        if escaped {
            push_escaped(&mut value, *byte)?;
            escaped = false;
        } else if *byte == b'\\' {
            escaped = true;
        } else {
            value.push(*byte)?;
        }
    }
    if escaped {
        value.push(b'\\')?;
    }
    Ok(Text::from_vec(value))
}
