//! The transformation that simplifies formulas by the laws of `true`, `false`, `if` and unused variables, from the leaves up.
//!
//! Contract: the task of the equation, and the laws of a transformation.
#![tactic(auto)]

mod constants;
mod evidence_of_laws;
mod laws;
mod linking;
mod opening;
mod scripts;
mod simplify;
mod simplifying;

pub use simplify::SimplifiedFormulas;
