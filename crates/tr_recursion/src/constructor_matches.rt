// Evidence that a closed `match` of a constructor's application is alike the body of the constructor's branch, at the arguments
// that are the pattern's variables.
//
// Contract: steps that show the two equal or equivalent.

mod branches;
mod fields;
mod matches;
mod replacing;

pub use matches::alike_chosen;
