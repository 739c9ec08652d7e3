//! The transformations that spell groups out: definitions that aren't recursive, and inductive predicates.
//!
//! Contract: the task of the equation, and the laws of a transformation.
#![tactic(auto)]

mod definitions;
mod inductive;

pub use declarations::spelled_groups::push_in_place;
pub use definitions::Definitions;
pub use inductive::InductiveGroups;
