//! The table of the 39 rules; shapes of what premises add, told without making trees; the rows of connectives,
//! quantifiers, equality, terms of algebraic types, integers and facts.
//!
//! Contract: each row exactly.
#![tactic(auto)]

mod apart;
mod connectives;
mod equality;
pub mod fact_rules;
mod leaves;
mod quantifiers;
mod rule;
mod shape;
mod term;
pub mod term_rules;
mod tried;

pub use apart::{
    application_parts, equation_sides, existential_parts, has_type, is_end, negated_formula,
    universal_parts,
};
pub use connectives::{connective_fails, connective_holds};
pub use equality::{if_def, let_def, refl, replace};
pub use leaves::{clash, cut, irrefl, is_false, keep, not_not, not_true};
pub use quantifiers::{at_new, at_term};
pub use rule::{Rule, Step};
pub use shape::{Alike, AtTypes, Equal, Instance, Join, Not, Shape};
pub use term::Term;
pub use tried::{
    Tried, adds_both, adds_each, adds_none, adds_one, adds_pairs, formula_at, is_wider, premise,
};
