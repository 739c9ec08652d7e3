// Why the parts of a goal can't be printed.
// It depends on the faults of one problem; the problems of parts answer it.
ghost use Rattle.std.specs.Prelude.{◌≡◌};
ghost use Rattle.part_texts.specs.Problems.{fault_of};
ghost use Rattle.part_texts.specs.declared.fault.PartFault.TheVariants.{Memory as NoMemory};

use printed_problems::PrintFault;
use std::alloc::{AllocError, AllocFailed};

/// Why the parts of a goal have no texts. Parts count from 1; a declaration counts from 0 in its part, where locals and the goal
/// have the number of declarations.
#[derive(Clone, Copy)]
pub enum PartFault {
    Memory,
    /// A schematic type variable is in this declaration.
    Polymorphic { part: usize, decl: usize },
    /// The printer lacks the kind or a form of this declaration.
    Unprintable { part: usize, decl: usize },
    /// `int` or a symbol of int.Int has no template, by its place in the name table.
    NoSyntax { part: usize, symbol: usize },
}

impl From<AllocError> for PartFault {
    ghost from_gives = { λ _ e. e ≡ NoMemory };

    fn from(_: AllocError) -> Self {
        PartFault::Memory
    }
}

impl<T: Drop> From<AllocFailed<T>> for PartFault {
    ghost from_gives = { λ _ e. e ≡ NoMemory };

    fn from(_: AllocFailed<T>) -> Self {
        PartFault::Memory
    }
}

/// The fault of the part with this number.
pub(crate) fn fault_of(part: usize, fault: PrintFault) -> PartFault
    ensures { result ≡ fault_of part fault }
{
    match fault {
        PrintFault::Memory => PartFault::Memory,
        PrintFault::Polymorphic { decl } => PartFault::Polymorphic { part, decl },
        PrintFault::Unprintable { decl } => PartFault::Unprintable { part, decl },
        PrintFault::NoSyntax { symbol } => PartFault::NoSyntax { part, symbol },
    }
}
