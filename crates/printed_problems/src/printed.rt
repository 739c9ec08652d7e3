// What is printed of a task.
use name_tables::NameEntry;
use tasks::{Seq, Text};
use trees::store::TermId;

/// What is printed of a task: its name table, the driver's preludes, the places of the types and of
/// the symbols that are declared, and its formulas.
#[derive(Drop)]
pub struct Problem {
    pub names: Seq<NameEntry>,
    pub preludes: Seq<Text>,
    pub sorts: Seq<usize>,
    pub symbols: Seq<usize>,
    pub facts: Seq<TermId>,
    pub locals: Seq<TermId>,
    pub goal: TermId,
}
