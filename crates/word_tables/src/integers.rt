// Integers of 128 bits as words in decimal.
//
// Contract: exactly the integer of a word; an integer's word is read back as it.

mod word;

pub use word::{integer, integer_word};
