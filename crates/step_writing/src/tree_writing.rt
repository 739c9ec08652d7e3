// The names of a table by symbols and types, and the lines of types, patterns, terms and formulas, written from trees.
//
// Contract: the name that is found stands for the symbol, whole or at the types; the lines are read back as the trees.

mod branches;
mod expressions;
mod marking;
mod naming;
mod plain;
mod referring;
mod spelling;
mod used;
mod writer;

pub use referring::{find_line, line_number, push_numbers};
pub use spelling::{Spelling, SymbolNames};
pub use writer::{LineKind, WrittenLines, push_line, written_trees};
