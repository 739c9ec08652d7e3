// Tokens by their numbers: what each is to the grammar, and its text.
ghost use Rattle.std.specs.Prelude.{true, ◌≡◌, ◌<◌, ◌+◌, length, Some, slice_get, IfOk};
ghost use Rattle.parser.specs.parse_terms.Common.{same, name, integer_word, Int, text_of};
ghost use Rattle.surface.specs.Lexeme.{at as place_at};
ghost use Rattle.parser.specs.parse_terms.Reading.{begins_atom, begins_atype, begins_patom, goes_on_with_field, terminal_at, token_at};
ghost use Rattle.parser.specs.parse_terms.Texts.{HasText};
ghost use Rattle.parser.specs.parse_terms.Sources.{IsTextAt, lexemes};

use crate::parse_terms::source::Source;
use grammar::is_same;
use outside::Text;
use std::alloc::{AllocError, Global};
use surface::{At, Name};
use tokens_why::{Terminal, Token, classify, literal_value};

/// What a token is to the grammar; beyond the last one a word with which no rule begins.
pub fn terminal(source: Source, i: usize) -> Terminal
    ensures { result ≡ terminal_at (lexemes source.entry) i }
{
    if i < source.tokens.len() {
        classify(source.tokens[i].kind)
    } else {
        Terminal::OtherWord
    }
}

/// Whether a terminal is at a token.
pub fn is_at(source: Source, i: usize, sought: Terminal) -> bool
    ensures { result ≡ same sought (terminal_at (lexemes source.entry) i) }
{
    is_same(sought, terminal(source, i))
}

/// The place of what begins at a token, and has no operator between operands.
pub fn place(i: usize) -> At
    ensures { result ≡ place_at i }
{
    At { first: i, main: i }
}

fn token(source: Source, i: usize) -> Token
    requires { i < length source.tokens.now }
    ensures { slice_get source.entry.tokens.now i ≡ Some result }
{
    source.tokens[i]
}

fn bytes(text: &[u8], token: Token) -> &[u8]
    requires { HasText text.now token }
    ensures { result.now ≡ text_of text.now token }
{
    &text[token.start..token.end]
}

/// The text of a token. Only want of memory refuses.
pub fn text(alloc: Global, source: Source, i: usize) -> Result<Text, AllocError>
    requires { i < length source.tokens.now }
    ensures { IfOk result (IsTextAt (lexemes source.entry) i) }
{
    let found = token(source, i);
    let text = Text::from_slice(alloc, bytes(source.text, found))?;
    Ok(text)
}

/// The value of an integer.
pub fn integer(source: Source, i: usize) -> i128
    requires within { i < length source.tokens.now }
    requires integer { same Int (terminal_at (lexemes source) i) ≡ true }
    ensures { integer_word result ≡ (token_at (lexemes source.entry) i).text }
{
    let found = token(source, i);
    match literal_value(bytes(source.text, found)) {
        Some(value) => value,
        None => unreachable!(),
    }
}

/// Whether an argument type begins.
pub fn at_type(source: Source, i: usize) -> bool
    ensures { result ≡ begins_atype (terminal_at (lexemes source.entry) i) }
{
    matches!(
        terminal(source, i),
        Terminal::TyVar | Terminal::Lident | Terminal::Uident | Terminal::LParen
    )
}

/// Whether a part of a pattern begins.
pub fn at_pattern(source: Source, i: usize) -> bool
    ensures { result ≡ begins_patom (terminal_at (lexemes source.entry) i) }
{
    matches!(
        terminal(source, i),
        Terminal::Wild | Terminal::Lident | Terminal::Uident | Terminal::LParen | Terminal::LBrace
    )
}

/// Whether an argument begins.
pub fn at_atom(source: Source, i: usize) -> bool
    ensures { result ≡ begins_atom (terminal_at (lexemes source.entry) i) }
{
    matches!(
        terminal(source, i),
        Terminal::Lident
            | Terminal::Uident
            | Terminal::StarName
            | Terminal::LParen
            | Terminal::Int
            | Terminal::TrueWord
            | Terminal::FalseWord
            | Terminal::MatchWord
            | Terminal::LBrace
    )
}

/// Whether a semicolon and then another field of a record stand from a token on.
pub fn at_next_field(source: Source, i: usize) -> bool
    ensures { result ≡ goes_on_with_field (terminal_at (lexemes source.entry) i)
        (terminal_at (lexemes source.entry) (i + 1)) }
{
    is_at(source, i, Terminal::Semi) && !is_at(source, i + 1, Terminal::RBrace)
}

/// A name with its place. Only want of memory refuses.
pub fn name_at(alloc: Global, source: Source, i: usize) -> Result<Name, AllocError>
    requires { i < length source.tokens.now }
    ensures place { IfOk result (λ n. n.at ≡ i) }
    ensures text { IfOk result (λ n. IsTextAt (lexemes source.entry) i n.text) }
{
    let text = text(alloc, source, i)?;
    Ok(Name { at: i, text })
}
