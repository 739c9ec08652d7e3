// Types, terms and formulas as text in the syntaxes of SMT-LIB and TFF0, by templates and by names; the ranks of symbols
// by places of the table.
//
// Contract: exactly the text, by cases on trees.

mod lists;
mod preludes;
mod printer;
mod ranks;
mod sorts;
mod terms;
mod words;

pub use preludes::push_preludes;
pub use printer::{TermPrinter, push_name_at, push_number, push_parameter};
pub use ranks::{Rank, push_sorts, rank_of};
pub use sorts::{push_sort, push_sort_at};
pub use terms::push_formula;
pub use words::{Binder, Form};
