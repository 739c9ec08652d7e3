// Descent of names, types, patterns, terms and formulas over tokens that are known to be good, which sets the places as it
// makes the trees; the longest expression from a place.
//
// Contract: the longest expression from a place, its one tree with its places, or the least token with which none begins.

mod expressions;
mod fields;
mod names;
mod operators;
mod parse;
mod parts;
mod patterns;
mod source;
mod tokens;
mod types;
mod whole;

pub use expressions::{ReadExpression, expression};
pub use grammar::recognise::{SyntaxFault, complete_expr, has_one_tree};
pub use names::{OwnName, head_name, lower_name, operator_name, upper_name};
pub use operators::{past_bar, past_semicolon};
pub use parse::parse_expr;
pub use patterns::pattern;
pub use source::Source;
pub use tokens::{at_atom, at_next_field, at_type, integer, is_at, name_at, place, terminal, text};
pub use types::{argument, type_arguments, type_list, type_tree};
pub use whole::whole_expression;
