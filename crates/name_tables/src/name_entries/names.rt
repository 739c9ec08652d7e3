// The entries of a name table.
use tasks::{Seq, Text};

/// What a name stands for.
#[derive(Clone, Copy, Debug, PartialEq, Eq)]
pub enum NameOf {
    /// The type `int`.
    Int,
    /// A type variable of the goal, by its entry in the signature.
    Rigid(usize),
    /// A symbol, by its entry in the signature.
    Symbol(usize),
}

/// An entry of a name table.
#[derive(Drop)]
pub struct NameEntry {
    pub name: Text,
    pub symbol: NameOf,
    /// The places of the types at which the symbol stands; none where it is whole.
    pub types: Seq<usize>,
}
