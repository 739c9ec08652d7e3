// The kinds of words and of runs of operator characters.
ghost use Rattle.std.specs.Prelude.{◌≡◌, ◌<◌, length};
ghost use Rattle.tokens_why.specs.Common.{list_any};
ghost use Rattle.tokens_why.specs.Strings as spec;
ghost use Rattle.tokens_why.specs.Reserved.{reserved_words};

use crate::bytes::is_upper;
use crate::reserved::ReservedWords;
use crate::token::TokenKind;

/// The kind of a word that is no reserved one.
fn letters_kind(word: &[u8]) -> TokenKind
    requires { 0 < length word.now }
    ensures { result ≡ spec.letters_kind word.now }
{
    if is_upper(word[0]) {
        return TokenKind::Uident;
    }
    if word == b"_".as_slice() {
        TokenKind::Wild
    } else {
        TokenKind::Lident
    }
}

/// The kind of a word.
pub fn word_kind(words: &ReservedWords, word: &[u8]) -> TokenKind
    requires some { 0 < length word.now }
    requires words { words.now ≡ reserved_words }
    ensures { result ≡ spec.word_kind word.now }
{
    match words.find(word) {
        Some(place) => TokenKind::Reserved(place),
        None => letters_kind(word),
    }
}

fn is_relation(byte: u8) -> bool
    ensures { result ≡ spec.is_relation byte }
{
    matches!(byte, b'=' | b'<' | b'>' | b'~')
}

fn is_sum(byte: u8) -> bool
    ensures { result ≡ spec.is_sum byte }
{
    matches!(byte, b'+' | b'-')
}

fn is_product(byte: u8) -> bool
    ensures { result ≡ spec.is_product byte }
{
    matches!(byte, b'*' | b'/' | b'\\' | b'%')
}

fn has_relation(run: &[u8]) -> bool
    ensures { result ≡ list_any spec.is_relation run.now }
{
    run.iter().any(|byte| is_relation(*byte))
}

fn has_sum(run: &[u8]) -> bool
    ensures { result ≡ list_any spec.is_sum run.now }
{
    run.iter().any(|byte| is_sum(*byte))
}

fn has_product(run: &[u8]) -> bool
    ensures { result ≡ list_any spec.is_product run.now }
{
    run.iter().any(|byte| is_product(*byte))
}

/// The level of an operator, from 1, the loosest, to 4.
fn level(run: &[u8]) -> usize
    ensures { result ≡ spec.level run.now }
{
    if has_relation(run) {
        1
    } else if has_sum(run) {
        2
    } else if has_product(run) {
        3
    } else {
        4
    }
}

/// Whether an operator is a prefix one.
fn is_prefix(run: &[u8]) -> bool
    requires { 0 < length run.now }
    ensures { result ≡ spec.is_prefix_word run.now }
{
    if level(run) != 4 {
        return false;
    }
    run[0] == b'!' || run[0] == b'?'
}

/// The kind of a run of operator characters.
pub fn run_kind(run: &[u8]) -> TokenKind
    requires { 0 < length run.now }
    ensures { result ≡ spec.run_kind run.now }
{
    if run == b"->".as_slice() {
        return TokenKind::Arrow;
    }
    if run == b"<->".as_slice() {
        return TokenKind::Equiv;
    }
    if run == b"/\\".as_slice() {
        return TokenKind::Conj;
    }
    if run == b"\\/".as_slice() {
        return TokenKind::Disj;
    }
    if run == b"&&".as_slice() {
        return TokenKind::AndAnd;
    }
    if run == b"=".as_slice() {
        return TokenKind::Equal;
    }
    if run == b"-".as_slice() {
        return TokenKind::Minus;
    }
    TokenKind::Operator(level(run), is_prefix(run))
}
