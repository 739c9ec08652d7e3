// Tokens of texts, with their terminals, bytes and values; words of a table.

use std::alloc::{AllocError, Global};
use tokens_why::{LexFault, Token, TokenKind, classify, lex, literal_value, token_kind};
use word_tables::WordTable;

/// The value of a literal, or nothing where it is too large.
pub(crate) fn put_value(alloc: Global, out: &mut String, literal: &[u8]) -> Result<(), AllocError> {
    match literal_value(literal) {
        Some(value) => {
            let digits = format!(in alloc; "={value}")?;
            out.push_str(digits.as_str())
        }
        None => out.push_str("=none"),
    }
}

// A token: its kind, its terminal, its bytes, and the value of a literal.
fn put_token(alloc: Global, out: &mut String, text: &[u8], token: Token) -> Result<(), AllocError> {
    let terminal = classify(token.kind);
    let shown = format!(in alloc;
        " {:?} {terminal:?} {}-{}",
        token.kind, token.start, token.end
    )?;
    out.push_str(shown.as_str())?;
    if classify(token_kind(terminal)) != terminal {
        out.push_str(" not its terminal")?;
    }
    if token.kind == TokenKind::Int {
        put_value(alloc, out, text.get(token.start..token.end).unwrap_or(b""))?;
    }
    Ok(())
}

/// A fault of tokens.
pub(crate) fn put_lex_fault(
    alloc: Global,
    out: &mut String,
    fault: LexFault,
) -> Result<(), AllocError> {
    let shown = match fault {
        LexFault::Memory => return Err(AllocError),
        LexFault::Lexical { byte } => format!(in alloc; "lexical {byte}")?,
        LexFault::BigLiteral { byte } => format!(in alloc; "big {byte}")?,
    };
    out.push_str(shown.as_str())
}

/// The tokens of a text, or their fault.
pub(crate) fn put_tokens(alloc: Global, out: &mut String, text: &[u8]) -> Result<(), AllocError> {
    match lex(alloc, text) {
        Ok(tokens) => {
            out.push_str("tokens")?;
            for token in &tokens {
                put_token(alloc, out, text, *token)?;
            }
            Ok(())
        }
        Err(fault) => put_lex_fault(alloc, out, fault),
    }
}

/// The place of a word in a table of four words, and the word that is there.
pub(crate) fn put_place(alloc: Global, out: &mut String, word: &[u8]) -> Result<(), AllocError> {
    let table: WordTable<4> = WordTable::new(&["a", "ab", "b", "zz"]);
    match table.find(word) {
        Some(place) => {
            let shown = format!(in alloc; "{place} {}", table.word(place))?;
            out.push_str(shown.as_str())
        }
        None => out.push_str("none"),
    }
}
