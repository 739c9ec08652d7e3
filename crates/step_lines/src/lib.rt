//! What a line of a step file makes, steps with all 39 rules among them.
//!
//! Contract: exactly the step of a line; of a line that makes a tree what `tree_lines` says.
#![tactic(auto)]

mod arguments;
mod line;
pub mod rule_words;
mod steps;
mod thing;
pub mod tree_lines;
mod words;

pub use line::made_by_line;
pub use thing::MadeThing;
pub use word_tables::integers::{integer, integer_word};
