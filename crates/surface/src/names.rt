// Names as a source writes them, with their qualifiers and places.
use outside::{Seq, Text};

/// Where a thing stands: the number of the token with which it begins, and that of its operator.
/// `main` is the operator's token of a `Binary`, else `first`.
#[derive(Clone, Copy)]
pub struct At {
    pub first: usize,
    pub main: usize,
}

/// A name, or a type variable with its quote.
#[derive(Drop)]
pub struct Name {
    pub at: usize,
    pub text: Text,
}

/// How a name is written: plain, or as `(op)`, `(op_)` or `(*)`.
#[derive(Clone, Copy)]
pub enum Style {
    Plain,
    Infix,
    Prefix,
    Star,
}

/// The name of an operator, or of what is declared; a connective has the style `Plain`.
#[derive(Drop)]
pub struct OpName {
    pub at: usize,
    pub style: Style,
    pub text: Text,
}

/// A name with the scopes before it, each followed by a dot.
#[derive(Drop)]
pub struct QName {
    pub at: usize,
    pub scopes: Seq<Text>,
    pub style: Style,
    pub text: Text,
}

/// The path of a theory.
#[derive(Drop)]
pub struct Path {
    pub at: usize,
    pub parts: Seq<Text>,
}
