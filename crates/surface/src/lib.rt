//! The surface trees of sources, with the places of their tokens; their makers; the plain trees that contracts speak
//! of, which carry the same places; which tokens a tree writes, the level rule, which trees are placed; the tokens of
//! a tree.
//!
//! Contract: a maker makes the placed tree of its parts; exactly the tokens that a tree writes.
#![tactic(auto)]

mod declarations;
mod expressions;
mod making;
mod names;
mod patterns;
mod types;
pub mod unparse;

pub use declarations::{
    AlgTree, ClauseTree, ConTree, DeclNode, DeclTree, ElemNode, ElemTree, File, IndTree, Link,
    MemberTree, ParamTree, PropKind, SymbolWord, TheoryTree,
};
pub use expressions::{BinderTree, BranchTree, Expr, ExprNode, FieldValue, TriggerTree};
pub use names::{At, Name, OpName, Path, QName, Style};
pub use patterns::{FieldPat, Pat, PatNode};
pub use tokens_why::{LexFault, Token, lex};
pub use types::{TypeNode, TypeTree};
