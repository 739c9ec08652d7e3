// Tokens of terms: which begin a name or a quantifier, and which are operators.
ghost use Rattle.std.specs.Prelude.{◌&&◌, ◌||◌, ◌≡◌, ◌<◌, ◌+◌, IfOk, if◌then◌else◌, length, true};
ghost use Rattle.parser.specs.parse_terms.Common.{same, is_operator, is_prefix, op_of, tree_of, literal, op};
ghost use Rattle.tokens_why.specs.declared.terminal.Terminal.TheVariants as t;
ghost use Rattle.surface.specs.Lexeme.{at as place_at};
ghost use Rattle.parser.specs.parse_terms.Reading.{ends_name, is_name_at, takes_infix, terminal_at, token_at};
ghost use Rattle.parser.specs.parse_terms.Sources.{lexemes};

use crate::parse_terms::source::Source;
use crate::parse_terms::tokens::{integer, is_at, place, terminal, text};
use grammar::{is_infix, need_of, prec_of};
use std::alloc::{AllocError, Global};
use surface::{Expr, ExprNode, OpName, Style};
use tokens_why::Terminal;

fn names_operator(source: Source, i: usize) -> bool
    ensures { result ≡ is_operator (terminal_at (lexemes source.entry) i) }
{
    matches!(
        terminal(source, i),
        Terminal::Equal
            | Terminal::Minus
            | Terminal::Operator1
            | Terminal::Operator2
            | Terminal::Operator3
            | Terminal::Operator4
            | Terminal::PrefixOperator
    )
}

fn closes_name(source: Source, i: usize) -> bool
    ensures { result ≡ ends_name (terminal_at (lexemes source.entry) i) }
{
    matches!(terminal(source, i), Terminal::RParen | Terminal::Wild)
}

/// Whether a name of a term begins.
pub fn at_name(source: Source, i: usize) -> bool
    requires { i < length source.tokens.now }
    ensures { result ≡ is_name_at (lexemes source.entry) i }
{
    match terminal(source, i) {
        Terminal::Lident | Terminal::Uident | Terminal::StarName => true,
        Terminal::LParen => names_operator(source, i + 1) && closes_name(source, i + 1 + 1),
        _ => false,
    }
}

/// Whether an operator may follow at this level, after a tree that binds so tightly.
pub fn at_operator(source: Source, m: u8, tight: u8, i: usize) -> bool
    ensures { result ≡ takes_infix m tight (terminal_at (lexemes source.entry) i) }
{
    let x = terminal(source, i);
    is_infix(x) && m <= prec_of(x) && need_of(x) <= tight
}

/// Whether a prefix operator is at a token.
pub fn at_prefix(source: Source, i: usize) -> bool
    ensures { result ≡ is_prefix (terminal_at (lexemes source.entry) i) }
{
    matches!(
        terminal(source, i),
        Terminal::Minus | Terminal::PrefixOperator
    )
}

/// Whether a quantifier is at a token.
pub fn at_quantifier(source: Source, i: usize) -> bool
    ensures { result ≡ (same t.ForallWord (terminal_at (lexemes source.entry) i)
        || same t.ExistsWord (terminal_at (lexemes source.entry) i)) }
{
    is_at(source, i, Terminal::ForallWord) || is_at(source, i, Terminal::ExistsWord)
}

/// Whether another term of a trigger follows.
pub fn at_separator(source: Source, i: usize) -> bool
    ensures { result ≡ (same t.Comma (terminal_at (lexemes source.entry) i)
        || same t.Bar (terminal_at (lexemes source.entry) i)) }
{
    is_at(source, i, Terminal::Comma) || is_at(source, i, Terminal::Bar)
}

/// The operator at a token. Only want of memory refuses.
pub fn operator(alloc: Global, source: Source, i: usize) -> Result<OpName, AllocError>
    requires { i < length source.tokens.now }
    ensures { IfOk result (λ o. op_of o ≡ op i (terminal_at (lexemes source.entry) i)
        (token_at (lexemes source.entry) i).text) }
{
    let word = text(alloc, source, i)?;
    Ok(OpName {
        at: i,
        style: Style::Plain,
        text: word,
    })
}

/// Whether a bar is before the first of several parts, and where that part begins.
pub fn past_bar(source: Source, i: usize) -> (bool, usize)
    requires { i < length source.tokens.now }
    ensures bar { result.0 ≡ same t.Bar (terminal_at (lexemes source.entry) i) }
    ensures begins { result.1 ≡ (if result.0 then i + 1 else i) }
{
    if is_at(source, i, Terminal::Bar) {
        (true, i + 1)
    } else {
        (false, i)
    }
}

/// Whether a semicolon is after the last of several fields, and where the brace after them is.
pub fn past_semicolon(source: Source, i: usize) -> (bool, usize)
    requires { i < length source.tokens.now }
    ensures semi { result.0 ≡ same t.Semi (terminal_at (lexemes source.entry) i) }
    ensures brace { result.1 ≡ (if result.0 then i + 1 else i) }
{
    if is_at(source, i, Terminal::Semi) {
        (true, i + 1)
    } else {
        (false, i)
    }
}

/// The tree of an integer.
pub fn integer_tree(source: Source, i: usize) -> Expr
    requires within { i < length source.tokens.now }
    requires integer { same t.Int (terminal_at (lexemes source) i) ≡ true }
    ensures { tree_of result ≡ literal (place_at i) (token_at (lexemes source.entry) i).text }
{
    let here = place(i);
    let value = integer(source, i);
    Expr::new(here, ExprNode::Int(value))
}
