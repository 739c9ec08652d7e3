//! Tasks whose declarations are rewritten one by one, each to a list of declarations that make the same symbols; groups of definitions
//! and of inductive predicates spelled out, as such lists.
//!
//! Contract: the task of a rule; from which fact of the old task each fact of the new one comes.
#![tactic(auto)]

mod citing;
mod rewriting;
mod rule;
pub mod spelled_groups;

pub use citing::{cite_old, only_end};
pub use rewriting::{rewritten_task, rewritten_tasks};
pub use rule::{FactSearch, RewriteDeclarations, own_origin};
