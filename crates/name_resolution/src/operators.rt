// Operators and their own names.
// They depend on the terminals of tokens; the walks of names and of trees depend on them.
ghost use Rattle.std.specs.Prelude.{◌≡◌, IfOk};
ghost use Rattle.name_resolution.specs.Abstract.{spelled, prefix_name, text_of_own, operator_meaning};
ghost use Rattle.name_resolution.specs.Naming.{operation_at};
ghost use Rattle.surface.specs.Lexeme.{said};
ghost use Rattle.surface.specs.declared.names.Style.TheVariants.{Plain};
ghost use Rattle.surface.specs.Surface.{own_of, op_of};
ghost use Rattle.tokens_why.specs.Terminals.{string_terminal};

use std::alloc::{AllocError, Global};
use surface::{OpName, Style};
use tasks::{Op, Text};
use tokens_why::{Terminal, is_star, terminal_of_text};

/// What an operator between two operands is: a connective, equality or with `false` its negation, or the operator of a symbol.
#[derive(Clone, Copy)]
pub enum Operation<'a> {
    Connective(Op),
    Equality(bool),
    Symbol(&'a [u8]),
}

// The characters of an operator; of what is none, nothing.
fn operator_text(text: &[u8]) -> &[u8]
    ensures { result.now ≡ spelled (string_terminal text.now) (said
        (string_terminal text.now) text.now) }
{
    match terminal_of_text(text) {
        Terminal::Equal => b"=".as_slice(),
        Terminal::Minus => b"-".as_slice(),
        Terminal::Operator1 | Terminal::Operator2 => text,
        Terminal::Operator3 | Terminal::Operator4 | Terminal::PrefixOperator => text,
        _ => b"".as_slice(),
    }
}

/// The own name of a prefix operator of these characters.
pub fn prefix_name(alloc: Global, text: &[u8]) -> Result<Text, AllocError>
    ensures { IfOk result (λ name. name ≡ prefix_name text.now) }
{
    let mut name = Text::from_slice(alloc, text)?.into_vec();
    name.push(b'_')?;
    Ok(Text::from_vec(name))
}

// A word that is the name of a thing; of what is none, nothing.
fn word(text: &[u8]) -> &[u8]
    ensures { result.now ≡ text_of_own (own_of Plain text.now) }
{
    match terminal_of_text(text) {
        Terminal::Lident | Terminal::Uident => text,
        _ => b"".as_slice(),
    }
}

/// The own name of what a name calls: an operator's characters, those of a prefix operator before `_`.
pub fn own_name(alloc: Global, style: Style, text: &[u8]) -> Result<Text, AllocError>
    ensures { IfOk result (λ name. name ≡ text_of_own (own_of style text.now)) }
{
    match style {
        Style::Plain => Text::from_slice(alloc, word(text)),
        Style::Infix => match terminal_of_text(text) {
            Terminal::PrefixOperator => prefix_name(alloc, text),
            _ => Text::from_slice(alloc, operator_text(text)),
        },
        Style::Prefix => prefix_name(alloc, operator_text(text)),
        Style::Star => {
            if is_star(text) {
                Text::from_slice(alloc, b"*".as_slice())
            } else {
                Text::from_slice(alloc, b"".as_slice())
            }
        }
    }
}

/// The own name of a prefix operator of an expression.
pub fn prefix_operator(alloc: Global, op: &OpName) -> Result<Text, AllocError>
    ensures { IfOk result (λ name. name ≡ prefix_name (spelled (op_of op.now).terminal
        (op_of op.now).text)) }
{
    match op.style {
        Style::Plain => prefix_name(alloc, operator_text(op.text.as_slice())),
        _ => prefix_name(alloc, b"".as_slice()),
    }
}

// What the characters of an operator are.
fn operation_of(text: &[u8]) -> Operation<'_>
    ensures { operation_at result ≡ operator_meaning (string_terminal text.now) (said
        (string_terminal text.now) text.now) }
{
    match terminal_of_text(text) {
        Terminal::Conj => Operation::Connective(Op::And),
        Terminal::AndAnd => Operation::Connective(Op::AndThen),
        Terminal::Disj => Operation::Connective(Op::Or),
        Terminal::OrOr => Operation::Connective(Op::OrElse),
        Terminal::Arrow => Operation::Connective(Op::Imp),
        Terminal::Equiv => Operation::Connective(Op::Iff),
        Terminal::Equal => Operation::Equality(true),
        Terminal::Operator1 => {
            if text == b"<>".as_slice() {
                Operation::Equality(false)
            } else {
                Operation::Symbol(text)
            }
        }
        _ => Operation::Symbol(operator_text(text)),
    }
}

/// What an operator between two operands is.
pub fn infix_operation(op: &OpName) -> Operation<'_>
    ensures { operation_at result ≡ operator_meaning (op_of op.now).terminal (op_of op.now).text }
{
    match op.style {
        Style::Plain => operation_of(op.text.as_slice()),
        _ => Operation::Symbol(b"".as_slice()),
    }
}
