// The longest token at a place.
ghost use Rattle.std.specs.Prelude.{◌≡◌, ◌<◌, ◌≤◌, ◌+◌, length, drop, MatchOption};
ghost use Rattle.tokens_why.specs.Gap.{byte_in};
ghost use Rattle.tokens_why.specs.Longest.{IsLongestTokenAt, HasNone};
ghost use Rattle.tokens_why.specs.Longest as spec;
ghost use Rattle.tokens_why.specs.Strings.{lead_of, mark_kind};
ghost use Rattle.tokens_why.specs.Reserved.{reserved_words};

use crate::bytes::{
    Class, class_end, digit_value, is_digit, is_letter, is_lower, is_operator_byte, is_pair,
    radix_of,
};
use crate::gaps::is_star_name;
use crate::kinds::{run_kind, word_kind};
use crate::reserved::ReservedWords;
use crate::token::{Token, TokenKind};

/// What the first byte of a token says of it.
#[derive(Clone, Copy)]
pub enum Lead {
    Letter,
    Quote,
    Digit,
    Sign,
    Mark,
}

fn lead_of(byte: u8) -> Lead
    ensures { result ≡ lead_of byte }
{
    if is_letter(byte) {
        Lead::Letter
    } else if byte == b'\'' {
        Lead::Quote
    } else if is_digit(byte) {
        Lead::Digit
    } else if is_operator_byte(byte) {
        Lead::Sign
    } else {
        Lead::Mark
    }
}

/// A reserved word, an identifier or `_`.
fn word(words: &ReservedWords, text: &[u8], start: usize) -> Token
    requires within { start < length text.now }
    requires lead { lead_of (byte_in text.now start) ≡ Lead.Letter }
    requires words { words.now ≡ reserved_words }
    ensures { IsLongestTokenAt text.now start result }
{
    let end = class_end(text, start + 1, Class::Word);
    let kind = word_kind(words, &text[start..end]);
    Token { kind, start, end }
}

/// A type variable: a quote and the name of one, which may be a reserved word and isn't `_`.
fn variable(text: &[u8], start: usize) -> Option<Token>
    requires within { start < length text.now }
    requires lead { lead_of (byte_in text.now start) ≡ Lead.Quote }
    ensures { MatchOption result (HasNone (drop start text.now)) (IsLongestTokenAt text.now start) }
{
    if start + 1 >= text.len() {
        return None;
    }
    let first = text[start + 1];
    if !is_lower(first) {
        return None;
    }
    let end = class_end(text, start + 2, Class::Word);
    if first == b'_' {
        if end == start + 2 {
            return None;
        }
    }
    Some(Token {
        kind: TokenKind::TyVar,
        start,
        end,
    })
}

/// The radix of a literal that is at a place with a radix letter, or 0.
fn based_radix(text: &[u8], start: usize) -> u8
    requires { start < length text.now }
    ensures value { result ≡ spec.based_radix (drop start text.now) }
    ensures within { 0 < result → start + 3 ≤ length text.now }
{
    if text.len() - start < 3 {
        return 0;
    }
    if text[start] != b'0' {
        return 0;
    }
    let radix = radix_of(text[start + 1]);
    if digit_value(text[start + 2]) < radix {
        radix
    } else {
        0
    }
}

/// An integer literal.
fn literal(text: &[u8], start: usize) -> Token
    requires within { start < length text.now }
    requires lead { lead_of (byte_in text.now start) ≡ Lead.Digit }
    ensures { IsLongestTokenAt text.now start result }
{
    let kind = TokenKind::Int;
    let radix = based_radix(text, start);
    if radix == 0 {
        let end = class_end(text, start + 1, Class::DigitOrLine(10));
        Token { kind, start, end }
    } else {
        let end = class_end(text, start + 3, Class::DigitOrLine(radix));
        Token { kind, start, end }
    }
}

/// A run of operator characters.
fn run(text: &[u8], start: usize) -> Token
    requires within { start < length text.now }
    requires lead { lead_of (byte_in text.now start) ≡ Lead.Sign }
    ensures { IsLongestTokenAt text.now start result }
{
    let end = class_end(text, start + 1, Class::Operator);
    let kind = run_kind(&text[start..end]);
    Token { kind, start, end }
}

/// The kind of a token that is one mark.
fn mark_kind(byte: u8) -> Option<TokenKind>
    ensures { result ≡ mark_kind byte }
{
    match byte {
        b'(' => Some(TokenKind::LParen),
        b')' => Some(TokenKind::RParen),
        b'[' => Some(TokenKind::LBrack),
        b']' => Some(TokenKind::RBrack),
        b'{' => Some(TokenKind::LBrace),
        b'}' => Some(TokenKind::RBrace),
        b',' => Some(TokenKind::Comma),
        b'.' => Some(TokenKind::Dot),
        b':' => Some(TokenKind::Colon),
        b';' => Some(TokenKind::Semi),
        b'|' => Some(TokenKind::Bar),
        _ => None,
    }
}

/// A mark, `||` or `(*)`.
fn marks(text: &[u8], start: usize) -> Option<Token>
    requires within { start < length text.now }
    requires lead { lead_of (byte_in text.now start) ≡ Lead.Mark }
    ensures { MatchOption result (HasNone (drop start text.now)) (IsLongestTokenAt text.now start) }
{
    if is_star_name(text, start) {
        let kind = TokenKind::StarName;
        let end = start + 3;
        return Some(Token { kind, start, end });
    }
    if is_pair(text, start, b'|', b'|') {
        let kind = TokenKind::OrOr;
        let end = start + 2;
        return Some(Token { kind, start, end });
    }
    let end = start + 1;
    match mark_kind(text[start]) {
        Some(kind) => Some(Token { kind, start, end }),
        None => None,
    }
}

/// The longest token at a place, comments and attributes left aside.
pub fn longest_token(words: &ReservedWords, text: &[u8], start: usize) -> Option<Token>
    requires within { start < length text.now }
    requires words { words.now ≡ reserved_words }
    ensures { MatchOption result (HasNone (drop start text.now)) (IsLongestTokenAt text.now start) }
{
    match lead_of(text[start]) {
        Lead::Letter => Some(word(words, text, start)),
        Lead::Quote => variable(text, start),
        Lead::Digit => Some(literal(text, start)),
        Lead::Sign => Some(run(text, start)),
        Lead::Mark => marks(text, start),
    }
}
