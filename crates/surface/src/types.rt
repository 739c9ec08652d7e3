// The surface trees of types.
use crate::names::{At, QName};
use outside::{Seq, Text};

/// A type and where it is.
#[cycle(type_tree)]
#[derive(Drop)]
pub struct TypeTree {
    pub at: At,
    pub node: TypeNode,
}

/// A type variable with its quote, a type symbol with its arguments, or types in parentheses.
#[cycle(type_tree)]
#[derive(Drop)]
pub enum TypeNode {
    Var(Text),
    Named(QName, Seq<TypeTree>),
    Group(Seq<TypeTree>),
}
