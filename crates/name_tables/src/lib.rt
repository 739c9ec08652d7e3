//! The name tables of whole tasks: what occurs in one, each symbol at its types by first appearance, a shared term
//! looked at once; what is in a table, found by place; names spelt out; declarations noted once for several tasks.
//!
//! Contract: exactly the table of a task's problem and of a task; no two names are the same.
#![tactic(auto)]

pub mod name_entries;
mod noted;
mod spelling;
mod table;
mod things;
mod walk;

pub use crate::name_entries::{NameEntry, NameOf};
pub use noted::Noted;
pub use table::{names_of, problem_names, task_names};
pub use things::{Things, is_interpreted};
