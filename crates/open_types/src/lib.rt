//! The walk of terms and formulas whose names are there: trees over unknowns, type equations and matches in preorder,
//! who takes each unknown; the solution of type equations.
//!
//! Contract: exactly the piece of an expression; a most general solution, or the least prefix without one.
#![tactic(auto)]

mod arms;
mod bound;
mod draft;
mod expression;
mod locals;
mod operands;
mod patterns;
mod records;
mod reorder;
mod triggers;
mod types;
pub mod unify_types;
mod uses;

pub use draft::{Constraints, MatchAt, start_draft};
pub use expression::walk;
pub use locals::{Local, Locals};
pub use types::{list_of, put_types, type_of_form};
