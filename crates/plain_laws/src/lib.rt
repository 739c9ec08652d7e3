//! Laws of truth values, numbers, lists, options and results that the standard library lacks; no code.
#![tactic(auto)]
