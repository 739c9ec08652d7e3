// What is between tokens: blanks, comments and attributes.
ghost use Rattle.std.specs.Prelude.{◌≡◌, ◌+◌, ◌≤◌, ◌<◌, length, drop, IfSome};
ghost use Rattle.tokens_why.specs.Gap as spec;
ghost use Rattle.tokens_why.specs.Gap.{at_from, comment, attribute, has_star_name, next};

use crate::bytes::{Class, class_end, is_blank, is_byte, is_pair};

/// Whether a comment opens at a place: `(*` without `)` after it.
pub fn opens_comment(text: &[u8], at: usize) -> bool
    requires { at < length text.now }
    ensures { result ≡ spec.opens_comment (drop at text.now) }
{
    if !is_pair(text, at, b'(', b'*') {
        return false;
    }
    !is_byte(text, at + 2, b')')
}

/// Whether `(*)` is at a place.
pub fn is_star_name(text: &[u8], at: usize) -> bool
    requires { at < length text.now }
    ensures { result ≡ has_star_name (drop at text.now) }
{
    if !is_pair(text, at, b'(', b'*') {
        return false;
    }
    is_byte(text, at + 2, b')')
}

/// Whether an attribute opens at a place: `[@`.
pub fn opens_attribute(text: &[u8], at: usize) -> bool
    requires { at < length text.now }
    ensures { result ≡ spec.opens_attribute (drop at text.now) }
{
    is_pair(text, at, b'[', b'@')
}

/// Where the comment that opens at a place ends, if it is closed.
pub fn comment_end(text: &[u8], from: usize) -> Option<usize>
    requires { from + 2 ≤ length text.now }
    ensures place { result ≡ at_from from (comment (drop from text.now) 1 2) }
    ensures within { IfSome result (λ end. (from ≤ end) × (end ≤ length text.now)) }
{
    let mut depth: usize = 1;
    let mut at = from + 2;
    while at < text.len() && depth > 0 {
        if is_pair(text, at, b'(', b'*') {
            if is_byte(text, at + 2, b')') {
                at += 3;
            } else {
                depth += 1;
                at += 2;
            }
        } else if is_pair(text, at, b'*', b')') {
            depth -= 1;
            at += 2;
        } else {
            at += 1;
        }
    }
    if depth == 0 { Some(at) } else { None }
}

/// How many bytes the attribute that opens at a place takes, or 0 if it isn't closed.
fn attribute_length(text: &[u8], from: usize) -> usize
    requires { from ≤ length text.now }
    ensures place { result ≡ attribute (drop from text.now) }
    ensures within { from + result ≤ length text.now }
{
    let inside = class_end(text, from, Class::NoBracket);
    if inside < text.len() {
        inside + 1 - from
    } else {
        0
    }
}

/// How many bytes the blank, comment or attribute at a place takes, or 0 if there is none that is closed.
fn piece_length(text: &[u8], at: usize) -> usize
    requires { at < length text.now }
    ensures place { result ≡ spec.gap_piece (drop at text.now) }
    ensures within { at + result ≤ length text.now }
{
    if is_blank(text[at]) {
        return 1;
    }
    if opens_comment(text, at) {
        return match comment_end(text, at) {
            Some(end) => end - at,
            None => 0,
        };
    }
    if opens_attribute(text, at) {
        attribute_length(text, at)
    } else {
        0
    }
}

/// Where the next token begins, or the end of the text, or a byte with which nothing begins.
pub fn skip(text: &[u8], from: usize) -> usize
    requires { from ≤ length text.now }
    ensures place { result ≡ next text.now from }
    ensures within { (from ≤ result) × (result ≤ length text.now) }
{
    let mut at = from;
    while at < text.len() {
        let length = piece_length(text, at);
        if length == 0 {
            return at;
        }
        at += length;
    }
    at
}
