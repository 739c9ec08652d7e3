//! Evidence that two closed expressions are alike, one level of congruence at a time: negations, connectives, quantifiers,
//! equations, a `let` and its body at its value, the value of a `let` and what a `match` asks, conditionals (`if`, and `match` by its
//! tests), one term in the place of another, an argument of a symbol, and links of alike expressions.
//!
//! Contract: steps that show the two expressions equal or equivalent, from what shows their parts so.
#![tactic(auto)]

mod alike;
mod applications;
mod cases;
mod claims;
mod conditionals;
mod equations;
mod joins;
mod lets;
mod quantified;
mod replacing;
mod values;

pub use alike::{AlikeBy, Halves, make_halves};
pub use applications::{
    Cells, Replaced, SymbolAt, apply, arguments_of, cells_of, list_after, member_parts,
    replace_argument,
};
pub use cases::{CaseLinks, alike_branch, alike_cases, alike_ifs, alike_matches};
pub use claims::{alike_by_step, step_of_alike};
pub use conditionals::{CaseValues, Conditional, if_values, match_values};
pub use equations::alike_equal;
pub use joins::{alike_join, alike_not};
pub use lets::alike_let;
pub use quantified::alike_quantified;
pub use replacing::{alike_replaced, chain, flip, open_hole};
pub use tasks::typed_trees::instances::{instance, parameter};
pub use values::{alike_scrutinee, alike_value};
