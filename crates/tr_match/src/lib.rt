//! The transformation that makes each `match` its `if` form, everywhere: these forms, with their laws, over a store; and the evidence
//! of them.
//!
//! Contract: the task of the equation, and the laws of a transformation.
#![tactic(auto)]

pub mod if_forms;
mod linking;
pub mod match_forms;
mod matches;

pub use matches::Matches;
