// The tokens of a whole text.
ghost use Rattle.std.specs.Prelude.{◌≡◌, ◌<◌, ◌≤◌, ◌↔◌, ℕ, List, Err, length, MatchOption, MatchBool, IsOkAnd};
ghost use Rattle.tokens_why.specs.Common.{Token, Lexical, BigLiteral};
ghost use Rattle.tokens_why.specs.Reserved.{reserved_words};
ghost use Rattle.tokens_why.specs.Tokens.{AreTokens, BigLiteralAt, TokenBegins, Exceeds, LiteralFits, LexicalAt, NoneBegins, UnlessMemory};

use crate::fault::LexFault;
use crate::gaps::{opens_attribute, opens_comment, skip};
use crate::literals::literal_value;
use crate::longest::longest_token;
use crate::reserved::{ReservedWords, reserved_words};
use crate::token::{Token, TokenKind};
use std::alloc::Global;

/// The token that begins at a place, where no comment and no attribute opens.
fn token_at(words: &ReservedWords, text: &[u8], start: usize) -> Option<Token>
    requires within { start < length text.now }
    requires words { words.now ≡ reserved_words }
    ensures { MatchOption result (NoneBegins text.now start) (TokenBegins text.now start) }
{
    if opens_comment(text, start) {
        return None;
    }
    if opens_attribute(text, start) {
        return None;
    }
    longest_token(words, text, start)
}

/// Whether a token is a literal that is too big.
fn is_too_big(text: &[u8], token: Token) -> bool
    requires ordered { token.start ≤ token.end }
    requires within { token.end ≤ length text.now }
    ensures { MatchBool result (Exceeds text.now token) (LiteralFits text.now token) }
{
    match token.kind {
        TokenKind::Int => literal_value(&text[token.start..token.end]).is_none(),
        _ => false,
    }
}

/// The tokens of a text, in order. They are the longest that begin at their bytes, and outside of them stand only blanks
/// (space, tab, carriage return, line feed), nested comments `(* *)` and attributes from `[@` up to the next `]`.
///
/// It fails at the least byte at which no token, blank, comment or attribute begins, or one that isn't closed (`Lexical`),
/// or an integer literal above 2^127 - 1 (`BigLiteral`), whichever comes first.
pub fn lex(alloc: Global, text: &[u8]) -> Result<Vec<Token>, LexFault>
    ensures tokens { UnlessMemory result
        ((ts : List Token) → IsOkAnd result (λ v. v.items ≡ ts) ↔ AreTokens text.now ts) }
    ensures lexical { UnlessMemory result
        ((b : ℕ) → (result ≡ Err (Lexical b)) ↔ LexicalAt text.now b) }
    ensures big_literal { UnlessMemory result
        ((b : ℕ) → (result ≡ Err (BigLiteral b)) ↔ BigLiteralAt text.now b) }
{
    let words = reserved_words();
    let mut found = Vec::new(alloc);
    let mut at: usize = 0;
    'tokens: loop {
        let start = skip(text, at);
        if start >= text.len() {
            return Ok(found);
        }
        let Some(token) = token_at(&words, text, start) else {
            return Err(LexFault::Lexical { byte: start });
        };
        if is_too_big(text, token) {
            return Err(LexFault::BigLiteral { byte: start });
        }
        found.push(token)?;
        at = token.end;
    }
}
