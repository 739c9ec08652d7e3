// Names: after scopes, of operators in parentheses, of types and of constructors.
ghost use Rattle.std.specs.Prelude.{false, true, ◌≡◌, ◌+◌, ◌&&◌, [], IfOk};
ghost use Rattle.parser.specs.parse_terms.Common.{same, Opname, Qhead, Qlid, Quids, Dot, Uident, called, lower, called_of, own_of};
ghost use Rattle.parser.specs.parse_terms.Names.{IsOperatorName, IsUpperName, scoped_of};
ghost use Rattle.parser.specs.parse_terms.Reading.{CanRead, IsRead, terminal_at};
ghost use Rattle.parser.specs.parse_terms.Sources.{lexemes};

use crate::parse_terms::source::Source;
use crate::parse_terms::tokens::{is_at, text};
use outside::{Seq, Text};
use std::alloc::{AllocError, Global};
use surface::{QName, Style};
use tokens_why::Terminal;

/// A name without scopes, and the token after it.
#[derive(Drop)]
pub struct OwnName {
    pub style: Style,
    pub text: Text,
    pub end: usize,
}

/// The operator that is named after a parenthesis. Only want of memory refuses.
pub fn operator_name(alloc: Global, source: Source, i: usize) -> Result<OwnName, AllocError>
    requires { CanRead (lexemes source) Opname i }
    ensures { IfOk result
        (λ r. IsOperatorName (lexemes source.entry) i (own_of r.style r.text) r.end) }
{
    let word = text(alloc, source, i)?;
    let following = i + 1;
    let closed = is_at(source, following, Terminal::RParen);
    if closed {
        return Ok(OwnName {
            style: Style::Infix,
            text: word,
            end: following + 1,
        });
    }
    Ok(OwnName {
        style: Style::Prefix,
        text: word,
        end: following + 1 + 1,
    })
}

/// Whether a scope begins: a name in upper case that a dot follows.
fn at_scope(source: Source, i: usize) -> bool
    ensures { result ≡ (same Uident (terminal_at (lexemes source.entry) i)
        && same Dot (terminal_at (lexemes source.entry) (i + 1))) }
{
    is_at(source, i, Terminal::Uident) && is_at(source, i + 1, Terminal::Dot)
}

/// A name's last part.
fn own_name(alloc: Global, source: Source, i: usize) -> Result<OwnName, AllocError>
    requires can { CanRead (lexemes source) Qhead i }
    requires last { (same Uident (terminal_at (lexemes source) i)
        && same Dot (terminal_at (lexemes source) (i + 1))) ≡ false }
    ensures { IfOk result (λ r. IsRead (lexemes source.entry) Qhead i
        (record { scopes = []; own = own_of r.style r.text }) r.end) }
{
    let is_lower = is_at(source, i, Terminal::Lident);
    if is_lower {
        let lower = text(alloc, source, i)?;
        return Ok(OwnName {
            style: Style::Plain,
            text: lower,
            end: i + 1,
        });
    }
    let is_upper = is_at(source, i, Terminal::Uident);
    if is_upper {
        let upper = text(alloc, source, i)?;
        return Ok(OwnName {
            style: Style::Plain,
            text: upper,
            end: i + 1,
        });
    }
    let is_star = is_at(source, i, Terminal::StarName);
    if is_star {
        let star = Text::from_slice(alloc, b"*")?;
        return Ok(OwnName {
            style: Style::Star,
            text: star,
            end: i + 1,
        });
    }
    let name = operator_name(alloc, source, i + 1)?;
    Ok(name)
}

/// A name of a term after its scopes, and the token after it. Only want of memory refuses.
pub fn head_name(alloc: Global, source: Source, i: usize) -> Result<(QName, usize), AllocError>
    requires { CanRead (lexemes source) Qhead i }
    ensures read { IfOk result (λ r. IsRead (lexemes source.entry) Qhead i (scoped_of r.0) r.1) }
    ensures place { IfOk result (λ r. r.0.at ≡ i) }
{
    let mut scopes: Vec<Text> = Vec::new(alloc);
    let mut j = i;
    'scopes: while at_scope(source, j) {
        let word = text(alloc, source, j)?;
        scopes.push(word)?;
        j = j + 1 + 1;
    }
    let own = own_name(alloc, source, j)?;
    let name = QName {
        at: i,
        scopes: Seq::from_vec(scopes),
        style: own.style,
        text: own.text,
    };
    Ok((name, own.end))
}

/// A name of a type after its scopes, and the token after it. Only want of memory refuses.
pub fn lower_name(alloc: Global, source: Source, i: usize) -> Result<(QName, usize), AllocError>
    requires { CanRead (lexemes source) Qlid i }
    ensures read { IfOk result (λ r. IsRead (lexemes source.entry) Qlid i
        (record { scopes = r.0.scopes; last = r.0.text }) r.1) }
    ensures name { IfOk result (λ r. called_of r.0 ≡ called i r.0.scopes (lower r.0.text)) }
{
    let mut scopes: Vec<Text> = Vec::new(alloc);
    let mut j = i;
    'scopes: while is_at(source, j, Terminal::Uident) {
        let word = text(alloc, source, j)?;
        scopes.push(word)?;
        j = j + 1 + 1;
    }
    let last = text(alloc, source, j)?;
    let name = QName {
        at: i,
        scopes: Seq::from_vec(scopes),
        style: Style::Plain,
        text: last,
    };
    Ok((name, j + 1))
}

/// A name of a constructor after its scopes, and the token after it. Only want of memory refuses.
pub fn upper_name(alloc: Global, source: Source, i: usize) -> Result<(QName, usize), AllocError>
    requires first { same Uident (terminal_at (lexemes source) i) ≡ true }
    requires can { CanRead (lexemes source) Quids (i + 1) }
    ensures { IfOk result (λ r. IsUpperName (lexemes source.entry) i (called_of r.0) r.1) }
{
    let mut scopes: Vec<Text> = Vec::new(alloc);
    let mut last = text(alloc, source, i)?;
    let mut j = i + 1;
    'scopes: while is_at(source, j, Terminal::Dot) {
        let word = text(alloc, source, j + 1)?;
        scopes.push(last)?;
        last = word;
        j = j + 1 + 1;
    }
    let name = QName {
        at: i,
        scopes: Seq::from_vec(scopes),
        style: Style::Plain,
        text: last,
    };
    Ok((name, j))
}
