// The kind of a whole text, and its terminal.
ghost use Rattle.std.specs.Prelude.{◌≡◌};
ghost use Rattle.tokens_why.specs.Operators as operators;
ghost use Rattle.tokens_why.specs.Strings.{kind_of};
ghost use Rattle.tokens_why.specs.Terminals.{string_terminal};

use crate::longest::longest_token;
use crate::reserved::reserved_words;
use crate::terminal::{Terminal, classify};
use crate::token::TokenKind;

/// The kind of the token that a whole text is, if it is one.
pub fn kind_of_text(text: &[u8]) -> Option<TokenKind>
    ensures { result ≡ kind_of text.now }
{
    if text.is_empty() {
        return None;
    }
    let words = reserved_words();
    match longest_token(&words, text, 0) {
        Some(token) => {
            if token.end == text.len() {
                Some(token.kind)
            } else {
                None
            }
        }
        None => None,
    }
}

/// The terminal of the token that a whole text is; `OtherWord` where it is none.
pub fn terminal_of_text(text: &[u8]) -> Terminal
    ensures { result ≡ string_terminal text.now }
{
    match kind_of_text(text) {
        Some(kind) => classify(kind),
        None => Terminal::OtherWord,
    }
}

/// The text is that of the operator which `(*)` names.
pub fn is_star(text: &[u8]) -> bool
    ensures { result ≡ operators.is_star text.now }
{
    text == b"*".as_slice()
}
