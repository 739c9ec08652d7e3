// The surface trees of patterns.
use crate::names::{At, Name, QName};
use outside::{Boxed, Seq};

/// A pattern and where it is.
#[cycle(pattern_tree)]
#[derive(Drop)]
pub struct Pat {
    pub at: At,
    pub node: PatNode,
}

/// A wildcard, a variable, a constructor with its parts, patterns in parentheses, `p as x`, or fields of a record; the truth
/// value of these says that a `;` is before `}`.
#[cycle(pattern_tree)]
#[derive(Drop)]
pub enum PatNode {
    Wild,
    Var(Name),
    Con(QName, Seq<Pat>),
    Group(Seq<Pat>),
    Alias(Boxed<Pat>, Name),
    Fields(Seq<FieldPat>, bool),
}

/// A field of a record and its pattern.
#[cycle(pattern_tree)]
#[derive(Drop)]
pub struct FieldPat {
    pub name: QName,
    pub value: Pat,
}
