//! The grammar of sources as one table (a rule takes a terminal and leaves symbols), and a machine over it: a stack of
//! copied symbols that takes one token after another, without trees; the first token with which no source goes on.
//!
//! Contract: where tokens are no string of a rule, and whether another terminal could be there; the longest string;
//! what completes a beginning.
#![tactic(auto)]

mod accept;
mod ends;
mod operators;
pub mod reading;
pub mod recognise;
mod shortest;
mod symbols;
mod table;

pub use accept::is_same;
pub use ends::{SyntaxEnd, complete_tokens, first_fault, longest_length};
pub use operators::{is_infix, need_of, prec_of, right_of};
pub use symbols::Symbol;
