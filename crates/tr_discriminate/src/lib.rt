//! The transformation `discriminate`, which replaces polymorphic propositions by their wanted instances: which these are, and the
//! search for them. Evidence is the old proposition at the types that an instance of it shows.
//!
//! Contract: the task of the equation, and the laws of a transformation.
#![tactic(auto)]

mod citing;
mod discriminate;
pub mod instance_search;
pub mod instance_sets;
mod types;
pub mod wanted_instances;
pub mod wanted_search;

pub use discriminate::Discriminate;
