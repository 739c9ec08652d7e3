//! What is asked of a declaration beyond its types: each match takes all values, clauses are positive, recursion is
//! structural, algebraic types have finite values; which definitions are recursive.
//!
//! Contract: the first thing that is wrong, exactly, and none where nothing is.
#![tactic(auto)]

pub mod decl_checks;
pub mod match_cover;
mod node_tests;
pub mod recursive_groups;
