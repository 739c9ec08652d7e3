// The tokens of a driver text.
// They depend on gaps, strings and words; the lines depend on them.
ghost use Rattle.std.specs.Prelude.{false, ◌≡◌, ◌<◌, ◌≤◌, ◌+◌, length, drop, map, IfOk};
ghost use Rattle.tokens_why.specs.Gap.{byte_in};
ghost use Rattle.tokens_why.specs.Strings.{kind_of};
ghost use Rattle.drivers.specs.driver_tokens.Strings.{quoted};
ghost use Rattle.drivers.specs.driver_tokens.Tokens.{lexeme_in, driver_lexemes, mark_length, mark_of, number_length, operator_of, string_length, driver_terminal_of, token_length};
ghost use Rattle.drivers.specs.driver_tokens.Words.{driver_words};

use crate::driver_tokens::bytes::{Run, run_end};
use crate::driver_tokens::gaps::piece_length;
use crate::driver_tokens::strings::{is_utf8, quote_end};
use crate::driver_tokens::terminal::DriverTerminal;
use crate::driver_tokens::token::DriverToken;
use crate::driver_tokens::words::{DriverWords, driver_words, word_of};
use std::alloc::{AllocError, Global};
use tokens_why::{
    TokenKind, is_digit, is_letter, is_operator_byte, is_star_name, kind_of_text, opens_comment,
};

fn number_end(text: &[u8], start: usize) -> usize
    requires { start < length text.now }
    ensures place { result ≡ start + number_length (byte_in text.now start) (drop (start + 1)
        text.now) }
    ensures within { (start ≤ result) × (result ≤ length text.now) }
{
    if text[start] == b'0' {
        start + 1
    } else {
        run_end(text, start + 1, Run::Digit)
    }
}

fn string_end(text: &[u8], start: usize) -> usize
    requires { start < length text.now }
    ensures place { result ≡ start + string_length (drop (start + 1) text.now) (quoted false (drop
        (start + 1) text.now)) }
    ensures within { (start ≤ result) × (result ≤ length text.now) }
{
    match quote_end(text, start + 1) {
        Some(end) => {
            if is_utf8(&text[start + 1..end - 1]) {
                end
            } else {
                start
            }
        }
        None => start,
    }
}

fn mark_end(text: &[u8], start: usize) -> usize
    requires { start < length text.now }
    ensures place { result ≡ start + mark_length (byte_in text.now start) (drop start text.now) }
    ensures within { (start ≤ result) × (result ≤ length text.now) }
{
    if is_star_name(text, start) {
        return start + 3;
    }
    if opens_comment(text, start) {
        return start;
    }
    match text[start] {
        b'(' | b')' | b'.' | b',' => start + 1,
        _ => start,
    }
}

/// Where the token that begins at a place ends; the place itself where none does.
fn token_end(text: &[u8], start: usize) -> usize
    requires { start < length text.now }
    ensures place { result ≡ start + token_length (drop start text.now) }
    ensures within { (start ≤ result) × (result ≤ length text.now) }
{
    let first = text[start];
    if is_letter(first) {
        run_end(text, start + 1, Run::Word)
    } else if is_digit(first) {
        number_end(text, start)
    } else if is_operator_byte(first) {
        run_end(text, start + 1, Run::Operator)
    } else if first == b'"' {
        string_end(text, start)
    } else {
        mark_end(text, start)
    }
}

fn mark_of(word: &[u8]) -> DriverTerminal
    requires { 0 < length word.now }
    ensures { result ≡ mark_of (byte_in word.now 0) (drop 1 word.now) }
{
    match word[0] {
        b'"' => DriverTerminal::Text,
        b'(' => {
            if word.len() == 1 {
                DriverTerminal::Open
            } else {
                DriverTerminal::Star
            }
        }
        b')' => DriverTerminal::Close,
        b'.' => DriverTerminal::Dot,
        b',' => DriverTerminal::Comma,
        _ => DriverTerminal::Nothing,
    }
}

/// What a run of operator characters is: an operator, or a connective, which no driver has.
fn operator_of(run: &[u8]) -> DriverTerminal
    ensures { result ≡ operator_of (kind_of run.now) }
{
    match kind_of_text(run) {
        Some(TokenKind::Equal | TokenKind::Minus | TokenKind::Operator(_, _)) => {
            DriverTerminal::Operator
        }
        _ => DriverTerminal::Nothing,
    }
}

/// What the text of a token is.
fn terminal_of(words: &DriverWords, word: &[u8]) -> DriverTerminal
    requires { words.now ≡ driver_words }
    ensures { result ≡ driver_terminal_of word.now }
{
    if word.is_empty() {
        return DriverTerminal::Nothing;
    }
    let first = word[0];
    if is_letter(first) {
        DriverTerminal::Word(word_of(words, word))
    } else if is_digit(first) {
        DriverTerminal::Number
    } else if is_operator_byte(first) {
        operator_of(word)
    } else {
        mark_of(word)
    }
}

/// The tokens of a text, in order. Where no token begins at a byte, the last one is `Nothing` there.
pub fn lex_driver(alloc: Global, text: &[u8]) -> Result<Vec<DriverToken>, AllocError>
    ensures { IfOk result (λ v. map (lexeme_in text.now) v.items ≡ driver_lexemes text.now) }
{
    let words = driver_words();
    let mut found = Vec::new(alloc);
    let mut at: usize = 0;
    while at < text.len() {
        let gap = piece_length(text, at);
        if gap > 0 {
            at += gap;
        } else {
            let end = token_end(text, at);
            let terminal = terminal_of(&words, &text[at..end]);
            found.push(DriverToken {
                terminal,
                start: at,
                end,
            })?;
            if end == at {
                return Ok(found);
            }
            at = end;
        }
    }
    Ok(found)
}
