// The surface trees of expressions: terms, formulas, binders, triggers and branches.
use crate::names::{At, Name, OpName, QName};
use crate::patterns::Pat;
use crate::types::TypeTree;
use outside::{Boxed, Seq};

/// A term or formula and where it is.
#[cycle(expression_tree)]
#[derive(Drop)]
pub struct Expr {
    pub at: At,
    pub node: ExprNode,
}

/// The forms of terms and formulas.
/// `Apply` without arguments is the atom. The truth value of `Match` says that a `|` is before the first branch;
/// that of `Quant` is true for `forall`. `Dot` is `e.a`. `Fields` are those of a record;
/// its truth value says that a `;` is before `}`.
#[cycle(expression_tree)]
#[derive(Drop)]
pub enum ExprNode {
    Apply(QName, Seq<Expr>),
    Int(i128),
    True,
    False,
    Group(Seq<Expr>),
    Cast(Boxed<Expr>, TypeTree),
    Match(Seq<Expr>, bool, Seq<BranchTree>),
    Dot(Boxed<Expr>, QName),
    Fields(Seq<FieldValue>, bool),
    Prefix(OpName, Boxed<Expr>),
    Not(Boxed<Expr>),
    Binary(Boxed<Expr>, OpName, Boxed<Expr>),
    If(Boxed<Expr>, Boxed<Expr>, Boxed<Expr>),
    Let(Seq<Pat>, Boxed<Expr>, Boxed<Expr>),
    Quant(bool, Seq<BinderTree>, Option<TriggerTree>, Boxed<Expr>),
}

/// A field of a record and its value.
#[cycle(expression_tree)]
#[derive(Drop)]
pub struct FieldValue {
    pub name: QName,
    pub value: Expr,
}

/// A branch of a `match`: its alternatives, each a list of patterns, and its body.
#[cycle(expression_tree)]
#[derive(Drop)]
pub struct BranchTree {
    pub alternatives: Seq<Seq<Pat>>,
    pub body: Expr,
}

/// Terms in brackets; `bars` has an entry for each separator, true for `|`.
#[cycle(expression_tree)]
#[derive(Drop)]
pub struct TriggerTree {
    pub terms: Seq<Expr>,
    pub bars: Seq<bool>,
}

/// Names that are bound, and their type.
#[derive(Drop)]
pub struct BinderTree {
    pub names: Seq<Name>,
    pub ty: Option<TypeTree>,
}
