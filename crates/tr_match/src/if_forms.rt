// Evidence that a closed `match` is alike its `if` form: the branches' bodies at the terms for their patterns' variables, under the
// patterns' tests; the last one under no test.
//
// Contract: steps that show the two equal or equivalent.

mod if_forms;

pub use if_forms::match_evidence;
