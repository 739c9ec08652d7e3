//! The transformation that spells out recursive definitions, by branches where that applies, and the steps of these
//! branches.
//!
//! Contract: the task of the equation, and the laws of a transformation.
#![tactic(auto)]

pub mod branch_instances;
pub mod branch_steps;
pub mod constructor_matches;
mod origins;
mod recursion;
pub mod recursion_forms;

pub use recursion::Recursion;
