//! The transformation that makes algebraic types symbols with their laws: these declarations over a store, and the evidence of the
//! laws.
//!
//! Contract: the task of the equation, or the declaration that isn't taken; the laws of a transformation.
#![tactic(auto)]

mod algebraic;
pub mod algebraic_forms;
pub mod algebraic_tasks;
mod citing;
pub mod draft_images;
pub mod law_evidence;
mod making;

pub use algebraic::AlgebraicTypes;
