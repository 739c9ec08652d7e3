// The problems of whole tasks as SMT-LIB 2.6 text.
//
// Contract: exactly the text of a problem.

mod lines;
mod text;

pub use text::{push_smt_problem, smt_text};
