//! The transformation that puts out `let`: each becomes its body at its value, everywhere.
//!
//! Contract: the task of the equation, and the laws of a transformation.
#![tactic(auto)]

mod lets;
mod linking;
mod putting;

pub use lets::Lets;
