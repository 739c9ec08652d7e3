// The problems of whole tasks as TFF0 text.
//
// Contract: exactly the text of a problem.

mod lines;
mod text;

pub use text::{push_tff_problem, tff_text};
