//! The tokens of a source.
//!
//! Contract: exactly the tokens, or the least fault.
#![tactic(auto)]

mod bytes;
mod fault;
mod gaps;
mod kinds;
mod lexer;
mod literals;
mod longest;
mod own_names;
mod reserved;
mod terminal;
mod token;
mod whole;

pub use bytes::{is_blank, is_digit, is_letter, is_operator_byte, is_word_byte};
pub use fault::LexFault;
pub use gaps::{comment_end, is_star_name, opens_comment};
pub use lexer::lex;
pub use literals::literal_value;
pub use own_names::is_lower_own;
pub use terminal::{Terminal, classify, token_kind, token_kinds};
pub use token::{Token, TokenKind};
pub use whole::{is_star, kind_of_text, terminal_of_text};
