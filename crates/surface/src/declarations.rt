// The surface trees of declarations, theories and files.
use crate::expressions::Expr;
use crate::names::{At, Name, OpName, Path, QName};
use crate::types::TypeTree;
use outside::Seq;

/// A parameter or field of a type, with names or, as an argument type alone, without.
#[derive(Drop)]
pub struct ParamTree {
    pub names: Seq<Name>,
    pub ty: TypeTree,
}

/// What kind of proposition a declaration states.
#[derive(Clone, Copy)]
pub enum PropKind {
    Axiom,
    Lemma,
    Goal,
}

/// The word after `use` or `clone`.
#[derive(Clone, Copy)]
pub enum Link {
    Bare,
    Import,
    Export,
}

/// The word before a symbol that a clone replaces.
#[derive(Clone, Copy)]
pub enum SymbolWord {
    Function,
    Constant,
    Predicate,
}

/// A declaration and where it is.
#[cycle(declaration_tree)]
#[derive(Drop)]
pub struct DeclTree {
    pub at: At,
    pub node: DeclNode,
}

/// The forms of declarations. `UseTheory` and `CloneTheory` have the name after `as`.
#[cycle(declaration_tree)]
#[derive(Drop)]
pub enum DeclNode {
    TypeDecl(Name, Seq<Name>, Option<TypeTree>),
    Algebraic(Seq<AlgTree>),
    Function(OpName, Seq<ParamTree>, TypeTree, Option<Expr>, Seq<MemberTree>),
    Predicate(OpName, Seq<ParamTree>, Option<Expr>, Seq<MemberTree>),
    Constant(OpName, TypeTree, Option<Expr>),
    Inductive(Seq<IndTree>),
    Prop(PropKind, Name, Expr),
    UseTheory(Link, Path, Option<Name>),
    CloneTheory(Link, Path, Option<Name>, Seq<ElemTree>),
    ScopeDecl(Name, Seq<DeclTree>),
}

/// An algebraic type by its constructors, where `bar` says that a `|` is before the first one; or
/// a record type by its fields, each with one name, where `semi` says that a `;` is after the last
/// one. Where there are fields, there are no constructors.
#[derive(Drop)]
pub struct AlgTree {
    pub name: Name,
    pub vars: Seq<Name>,
    pub bar: bool,
    pub cons: Seq<ConTree>,
    pub fields: Seq<ParamTree>,
    pub semi: bool,
}

/// A constructor with its fields, which are written as parameters are: each type alone, or with the names of its fields.
#[derive(Drop)]
pub struct ConTree {
    pub name: Name,
    pub fields: Seq<ParamTree>,
}

/// A member after `with`: a function where it has a result type, else a predicate.
#[derive(Drop)]
pub struct MemberTree {
    pub name: OpName,
    pub params: Seq<ParamTree>,
    pub result: Option<TypeTree>,
    pub body: Expr,
}

/// An inductive predicate; `bar` says that a `|` is before the first clause.
#[derive(Drop)]
pub struct IndTree {
    pub name: OpName,
    pub params: Seq<ParamTree>,
    pub bar: bool,
    pub clauses: Seq<ClauseTree>,
}

/// A clause of an inductive predicate.
#[derive(Drop)]
pub struct ClauseTree {
    pub name: Name,
    pub prop: Expr,
}

/// An element of a clone's substitution.
#[derive(Drop)]
pub struct ElemTree {
    pub at: usize,
    pub node: ElemNode,
}

/// A type, a symbol or a proposition that a clone replaces, or all axioms.
#[derive(Drop)]
pub enum ElemNode {
    TypeElem(QName, Seq<Name>, TypeTree),
    SymbolElem(SymbolWord, QName, QName),
    PropElem(PropKind, QName),
    AllAxioms,
}

/// A theory or, where `module` is true, a module.
#[derive(Drop)]
pub struct TheoryTree {
    pub at: At,
    pub module: bool,
    pub name: Name,
    pub decls: Seq<DeclTree>,
}

/// A whole source.
#[derive(Drop)]
pub struct File {
    pub theories: Seq<TheoryTree>,
}
