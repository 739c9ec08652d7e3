//! The transformations that inline definitions: those with trivial bodies, all in the goal alone, or all everywhere; the full bodies of
//! definitions, over a store. Evidence goes from the last definition to the first: each use of a symbol equals, or is equivalent to,
//! its body, by the definition's equation.
//!
//! Contract: the task of the equation, and the laws of a transformation.
#![tactic(auto)]

mod closed_uses;
mod formulas;
pub mod full_bodies;
mod inline;
mod lemmas;
mod passes;
mod unfolding;
mod uses;

pub use closed_uses::{UnfoldedUse, unfold_closed};
pub use evidence::proof_scripts::{Line, Word, derive};
pub use full_bodies::InlineMode;
pub use inline::Inline;
