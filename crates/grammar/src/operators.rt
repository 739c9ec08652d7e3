// The infix operators: how tightly each binds, and what it needs on its left and on its right.
ghost use Rattle.std.specs.Prelude.{◌≡◌};
ghost use Rattle.grammar.specs.Common.{need, prec, right, is_infix};

use tokens_why::Terminal;

/// How tightly an operator binds.
pub fn prec_of(x: Terminal) -> u8
    ensures { result ≡ prec x }
{
    match x {
        Terminal::Arrow | Terminal::Equiv => 0,
        Terminal::Disj | Terminal::OrOr => 1,
        Terminal::Conj | Terminal::AndAnd => 2,
        Terminal::Equal | Terminal::Operator1 => 4,
        Terminal::Minus | Terminal::Operator2 => 5,
        Terminal::Operator3 => 6,
        Terminal::Operator4 => 7,
        _ => 0,
    }
}

/// What it needs on its left.
pub fn need_of(x: Terminal) -> u8
    ensures { result ≡ need x }
{
    match x {
        Terminal::Arrow | Terminal::Equiv => 1,
        Terminal::Disj | Terminal::OrOr => 2,
        Terminal::Conj | Terminal::AndAnd => 3,
        Terminal::Equal | Terminal::Operator1 | Terminal::Minus | Terminal::Operator2 => 5,
        Terminal::Operator3 => 6,
        Terminal::Operator4 => 7,
        _ => 0,
    }
}

/// What it needs on its right.
pub fn right_of(x: Terminal) -> u8
    ensures { result ≡ right x }
{
    match x {
        Terminal::Arrow | Terminal::Equiv => 0,
        Terminal::Disj | Terminal::OrOr => 1,
        Terminal::Conj | Terminal::AndAnd => 2,
        Terminal::Equal | Terminal::Operator1 => 5,
        Terminal::Minus | Terminal::Operator2 => 6,
        Terminal::Operator3 => 7,
        Terminal::Operator4 => 8,
        _ => 0,
    }
}

/// Whether a terminal is an infix operator.
pub fn is_infix(x: Terminal) -> bool
    ensures { result ≡ is_infix x }
{
    matches!(
        x,
        Terminal::Arrow
            | Terminal::Equiv
            | Terminal::Disj
            | Terminal::OrOr
            | Terminal::Conj
            | Terminal::AndAnd
            | Terminal::Equal
            | Terminal::Operator1
            | Terminal::Minus
            | Terminal::Operator2
            | Terminal::Operator3
            | Terminal::Operator4
    )
}
