// Why a task can't be printed.
ghost use Rattle.std.specs.Prelude.{◌≡◌};
ghost use Rattle.printed_problems.specs.declared.fault.PrintFault.TheVariants.{Memory as NoMemory};

use std::alloc::{AllocError, AllocFailed};

/// Why a task has no text. Declarations count from 0, and locals and the goal have the number of declarations.
///
/// - `Memory`: memory ran out.
/// - `Polymorphic`: a schematic type variable is in this declaration.
/// - `Unprintable`: this declaration is of a kind, or has a form, that the printer lacks.
/// - `NoSyntax`: `int` or a symbol of int.Int is used and has no template; the symbol is its place in the name table.
#[derive(Clone, Copy)]
pub enum PrintFault {
    Memory,
    Polymorphic { decl: usize },
    Unprintable { decl: usize },
    NoSyntax { symbol: usize },
}

impl From<AllocError> for PrintFault {
    ghost from_gives = { λ _ e. e ≡ NoMemory };

    fn from(_: AllocError) -> Self {
        PrintFault::Memory
    }
}

impl<T: Drop> From<AllocFailed<T>> for PrintFault {
    ghost from_gives = { λ _ e. e ≡ NoMemory };

    fn from(_: AllocFailed<T>) -> Self {
        PrintFault::Memory
    }
}
