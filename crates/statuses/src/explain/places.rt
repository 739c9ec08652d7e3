// Lines and columns of a file, and where a fault is in it.
// They depend on the tokens; the messages depend on them.
ghost use Rattle.std.specs.Prelude.{◌≡◌, ◌≤◌, ◌-◌, [], IfOk, length, get_or, map};
ghost use Rattle.tokens_why.specs.declared.token.Token.{Token};
ghost use Rattle.statuses.specs.explain.Places as spec;
ghost use Rattle.statuses.specs.explain.Places.{bytes_of_parts, TokenStandsAt, StandsAt, IsSpot, spot_or, line_number, line_before, column_after};

use crate::explain::table::Counts;
use std::alloc::{AllocError, Global};
use tokens_why::{LexFault, Token, lex};

/// Where a fault stands: in no place of its file, at a byte, or in a line.
/// Bytes count from 0, lines from 1.
#[derive(Clone, Copy)]
pub enum Spot {
    Nowhere,
    Byte(usize),
    Line(usize),
}

/// The lines of a text, which end at line feeds.
pub fn lines<'a>(alloc: Global, text: &'a [u8]) -> Result<Vec<&'a [u8]>, AllocError>
    ensures { IfOk result (λ v. bytes_of_parts v.items ≡ spec.text_lines text.now) }
{
    text.split(|b| *b == b'\n').collect(alloc)
}

/// A line by its number, or nothing where there is none.
pub fn line_of<'a>(lines: &[&'a [u8]], number: usize) -> &'a [u8]
    ensures { result.now ≡ get_or (bytes_of_parts lines.now) (number - 1) [] }
{
    match lines.get(number.saturating_sub(1)) {
        Some(line) => *line,
        None => &[],
    }
}

/// The number of a byte's line, and what is before the byte in it.
pub fn place<'a>(
    alloc: Global,
    text: &'a [u8],
    byte: usize,
) -> Result<(usize, &'a [u8]), AllocError>
    requires { byte ≤ length text.now }
    ensures { IfOk result (λ p. (p.0 ≡ line_number text.now byte)
        × (p.1.now ≡ line_before text.now byte)) }
{
    let lines = lines(alloc, &text[..byte])?;
    Ok((lines.len(), line_of(&lines, lines.len())))
}

/// Whether a character begins at a byte, in UTF-8.
pub fn begins_character(byte: u8) -> bool
    ensures { result ≡ spec.begins_character byte }
{
    byte < 128 || byte >= 192
}

/// The column after these bytes of a line.
pub fn column_after(bytes: &[u8]) -> usize
    ensures { result ≡ spec.column_after bytes.now }
{
    bytes.iter().filter(|b| begins_character(**b)).count() + 1
}

fn byte_spot(text: &[u8], byte: usize) -> Spot
    ensures spot { result ≡ spec.byte_spot text.now byte }
    ensures place { IsSpot text.now result }
{
    if byte <= text.len() {
        Spot::Byte(byte)
    } else {
        Spot::Nowhere
    }
}

fn token_byte(tokens: &[Token], number: usize) -> Option<usize>
    ensures { result ≡ spec.token_byte tokens.now number }
{
    match tokens.get(number) {
        Some(token) => Some(token.start),
        None => {
            if number == tokens.len() {
                match tokens.get(number.saturating_sub(1)) {
                    Some(token) => Some(token.end),
                    None => Some(0),
                }
            } else {
                None
            }
        }
    }
}

fn spot_in(text: &[u8], tokens: &[Token], number: usize) -> Spot
    ensures spot { result ≡ spot_or text.now (spec.token_byte tokens.now number) }
    ensures place { IsSpot text.now result }
{
    match token_byte(tokens, number) {
        Some(byte) => byte_spot(text, byte),
        None => Spot::Nowhere,
    }
}

fn token_spot(alloc: Global, text: &[u8], number: usize) -> Result<Spot, AllocError>
    ensures spot { IfOk result (TokenStandsAt text.now number) }
    ensures place { IfOk result (IsSpot text.now) }
{
    match lex(alloc, text) {
        Ok(tokens) => Ok(spot_in(text, &tokens, number)),
        Err(LexFault::Memory) => Err(AllocError),
        Err(LexFault::Lexical { byte: _ }) => Ok(Spot::Nowhere),
        Err(LexFault::BigLiteral { byte: _ }) => Ok(Spot::Nowhere),
    }
}

/// Where a fault with this last number stands.
pub fn spot_of(
    alloc: Global,
    text: &[u8],
    counts: Counts,
    number: usize,
) -> Result<Spot, AllocError>
    ensures spot { IfOk result (StandsAt text.now counts number) }
    ensures place { IfOk result (IsSpot text.now) }
{
    match counts {
        Counts::Nothing => Ok(Spot::Nowhere),
        Counts::Bytes => Ok(byte_spot(text, number)),
        Counts::Tokens => token_spot(alloc, text, number),
        Counts::Lines => Ok(Spot::Line(number)),
    }
}
