//! The parser of sources: the descent of names, types, patterns, terms, formulas and declarations over tokens; the
//! reader of whole sources; the embedded library, read from its texts.
//!
//! Contract: the one file of the tokens, with its places, or the first token that is nested too deep, or the least
//! with which no source begins.
#![tactic(auto)]

pub mod parse_decls;
pub mod parse_terms;
pub mod std_theories;
