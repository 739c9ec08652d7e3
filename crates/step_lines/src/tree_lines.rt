// The lines of types, patterns, terms and formulas of step files, and the names of a table at types.
//
// Contract: exactly the type of a line; of the other lines the tree that the words make, and none only where they make no
// tree or one whose parts don't fit.

mod expressions;
mod forms;
mod kinds;
mod known;
mod names;
mod nodes;
mod patterns;
mod uses;
mod words;

pub use expressions::line_expression;
pub use known::{EarlierLines, thing, things_at};
pub use names::{Named, TableNames, meaning_of};
pub use nodes::type_list;
pub use patterns::{line_pattern, line_type};
pub use words::number_of_word;
