//! Scopes of names, an alias of a type among them; look-ups by strings and by bytes.
//!
//! Contract: what a name means at a place.
#![tactic(auto)]

ghost use Rattle.std.specs.Prelude.{◌≡◌};
ghost use Rattle.scopes.specs.Names.{number_of};

mod entries;
mod nested;

pub use nested::Scope;
pub use outside::{Seq, Text};
use std::alloc::{AllocError, AllocFailed};

/// The tables of a scope: type symbols; functions, predicates, constants and constructors; axioms, lemmas, goals and
/// clauses; scopes.
#[derive(Clone, Copy, Debug, PartialEq, Eq)]
pub enum Table {
    Types,
    Symbols,
    Propositions,
    Scopes,
}

/// What a name of the table of types stands for: an entry, by its number, or a type, with the number of its type variables.
/// In any other table a name stands for an entry, and in that of scopes for a scope.
#[derive(Clone, Copy, Debug, PartialEq, Eq)]
pub enum Referent<A> {
    Entry(usize),
    Alias { vars: usize, ty: A },
}

/// What a name stands for in code, where a type is its number in a store.
pub type TypeName = Referent<usize>;

// The number of the entry. A type is none, and counts as 0.
fn number(of: TypeName) -> usize
    ensures { result ≡ number_of of }
{
    match of {
        Referent::Entry(number) => number,
        Referent::Alias { vars: _, ty: _ } => 0,
    }
}

/// Why a name isn't entered or brought in.
#[derive(Clone, Copy, Debug, PartialEq, Eq)]
pub enum NameFault {
    /// Memory is wanting.
    Memory,
    /// The innermost scope declared the name in this table before.
    Duplicate,
    /// Nothing has this name.
    Unknown,
}

impl From<AllocError> for NameFault {
    ghost use Rattle.std.specs.Prelude.{◌≡◌};
    ghost use Rattle.scopes.specs.declared.NameFault.TheVariants.{Memory as NoMemory};

    ghost from_gives = { λ _ e. e ≡ NoMemory };

    fn from(_: AllocError) -> Self {
        NameFault::Memory
    }
}

impl<T: Drop> From<AllocFailed<T>> for NameFault {
    ghost use Rattle.std.specs.Prelude.{◌≡◌};
    ghost use Rattle.scopes.specs.declared.NameFault.TheVariants.{Memory as NoMemory};

    ghost from_gives = { λ _ e. e ≡ NoMemory };

    fn from(_: AllocFailed<T>) -> Self {
        NameFault::Memory
    }
}
