// A token: its kind, and the bytes of the source that it takes.

/// What a token is, without its text (Why3 manual, "Lexical conventions").
///
/// `Reserved` has the word's place among the reserved words. `Operator` has the level, from 1 (the loosest) to 4, and
/// whether it is a prefix operator; `=` and `-` have kinds of their own.
#[derive(Clone, Copy, Debug, PartialEq, Eq)]
pub enum TokenKind {
    Lident,
    Uident,
    Wild,
    TyVar,
    Int,
    StarName,
    LParen,
    RParen,
    LBrack,
    RBrack,
    LBrace,
    RBrace,
    Comma,
    Dot,
    Colon,
    Semi,
    Bar,
    Arrow,
    Equiv,
    Conj,
    AndAnd,
    Disj,
    OrOr,
    Equal,
    Minus,
    Operator(usize, bool),
    Reserved(usize),
}

/// A token, which takes the bytes from `start` up to `end`.
#[derive(Clone, Copy)]
pub struct Token {
    pub kind: TokenKind,
    pub start: usize,
    pub end: usize,
}
