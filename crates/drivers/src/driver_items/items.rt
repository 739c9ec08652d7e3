// What the lines of a driver say: their names and strings.
// They depend on the lines of driver texts; the steps of the reader depend on them.
ghost use Rattle.std.specs.Prelude.{[], ◌≡◌, ◌-◌, ◌++◌, IfOk, codes, if◌then◌else◌, length, map, option_map, slice_get, slice_range};
ghost use Rattle.tokens_why.specs.Strings.{kind_of};
ghost use Rattle.drivers.specs.driver_tokens.Tokens.{lexeme_in};
ghost use Rattle.drivers.specs.driver_items.Items as spec;

use crate::driver_tokens::{DriverTerminal, DriverToken, string_value};
use outside::Text;
use std::alloc::{AllocError, Global};
use tokens_why::{TokenKind, kind_of_text};

/// The items from one place up to another, as far as they are there.
pub fn part<T>(items: &[T], first: usize, end: usize) -> &[T]
    ensures { result.now ≡ slice_range items.now first end }
{
    let end = if end < items.len() { end } else { items.len() };
    if first < end {
        &items[first..end]
    } else {
        &items[..0]
    }
}

/// The bytes of a token.
pub fn bytes_of(text: &[u8], token: DriverToken) -> &[u8]
    ensures { result.now ≡ (lexeme_in text.now token).text }
{
    part(text, token.start, token.end)
}

/// What a string says.
pub fn string_of(alloc: Global, text: &[u8], token: DriverToken) -> Result<Text, AllocError>
    ensures { IfOk result (λ t. t ≡ spec.string_value_of (lexeme_in text.now token)) }
{
    let bytes = bytes_of(text, token);
    string_value(alloc, part(bytes, 1, bytes.len().saturating_sub(1)))
}

fn is_prefix_operator(operator: &[u8]) -> bool
    ensures { result ≡ spec.is_prefix_kind (kind_of operator.now) }
{
    match kind_of_text(operator) {
        Some(TokenKind::Operator(_, prefix)) => prefix,
        _ => false,
    }
}

/// What comes after an operator that is named without `_`.
fn line_by(text: &[u8], token: DriverToken) -> bool
    ensures { (if result then codes "_" else [])
        ≡ spec.prefix_mark_by token.terminal (lexeme_in text.now
        token).text }
{
    match token.terminal {
        DriverTerminal::Operator => is_prefix_operator(bytes_of(text, token)),
        _ => false,
    }
}

/// Whether a name lacks the `_` of its prefix operator.
fn lacks_line(text: &[u8], tokens: &[DriverToken]) -> bool
    ensures { (if result then codes "_" else []) ≡ spec.prefix_mark (option_map (lexeme_in text.now)
        (slice_get tokens.now (length tokens.now - 2))) }
{
    let place = tokens.len().saturating_sub(2);
    match tokens.get(place) {
        Some(token) => line_by(text, *token),
        None => false,
    }
}

/// What a token adds to a name.
fn name_bytes(text: &[u8], token: DriverToken) -> &[u8]
    ensures { result.now ≡ spec.name_bytes token.terminal (lexeme_in text.now token).text }
{
    let bytes = bytes_of(text, token);
    match token.terminal {
        DriverTerminal::Open | DriverTerminal::Close => part(bytes, 0, 0),
        DriverTerminal::Star => part(bytes, 1, 2),
        _ => bytes,
    }
}

/// The `_` of a prefix operator that is named without, after a name.
fn push_line(name: &mut Vec<u8>, text: &[u8], tokens: &[DriverToken]) -> Result<(), AllocError>
    ensures { IfOk result (λ u. name.new.items ≡ name.old.items ++ spec.prefix_mark (option_map
        (lexeme_in text.now) (slice_get tokens.now (length tokens.now - 2)))) }
{
    let lacks = lacks_line(text, tokens);
    let line = if lacks {
        b"_".as_slice()
    } else {
        b"".as_slice()
    };
    name.extend_from_slice(line)
}

/// The name that tokens write: words with dots, and an operator's own name.
pub fn name_of(alloc: Global, text: &[u8], tokens: &[DriverToken]) -> Result<Text, AllocError>
    ensures { IfOk result (λ t. t ≡ spec.written_name (map (lexeme_in text.now) tokens.now)) }
{
    let mut name = Vec::new(alloc);
    for token in tokens {
        name.extend_from_slice(name_bytes(text, *token))?;
    }
    push_line(&mut name, text, tokens)?;
    Ok(Text::from_vec(name))
}
