//! Tables of words, by number and back; the words of integers.
//!
//! Contract: find and word are inverse; exactly the decimal word of an integer, and the integer of a word.
#![tactic(auto)]

pub mod integers;
mod table;

pub use table::WordTable;
