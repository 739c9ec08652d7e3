//! The transformation `eliminate_if`: what formulas are without their conditionals, and such formulas over a store; evidence of it,
//! one conditional at a time, by the equation of a conditional and one term in the place of another.
//!
//! Contract: the task of the equation, or the declaration that isn't taken; the laws of a transformation.
#![tactic(auto)]

pub mod conditionals;
mod eliminating;
mod firsts;
mod implying;
mod linking;
mod places;
mod refused;
mod rule;
mod values;

pub use eliminating::Conditionals;
