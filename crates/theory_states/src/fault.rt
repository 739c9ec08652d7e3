// What is wrong with a source whose syntax is right.
use std::alloc::{AllocError, AllocFailed};

/// The first thing that is wrong with the theories of a source, or want of memory. `decl` counts the source's declarations from 0, the
/// headers of theories and scopes among them.
#[derive(Clone, Copy)]
pub enum SourceFault {
    Memory,
    /// A name, or the path of a theory, that isn't there.
    Unknown { decl: usize, token: usize },
    /// A name that is made twice.
    Duplicate { decl: usize, token: usize },
    /// A term where a formula is due, or another thing of the wrong kind.
    WrongKind { decl: usize, token: usize },
    /// Another number of arguments.
    Arity { decl: usize, token: usize },
    /// The k-th equation of types has no solution with those before it.
    Clash { decl: usize, k: usize },
    /// A type that stays open.
    Undetermined { decl: usize, token: usize },
    /// A match that doesn't take all values.
    NotExhaustive { decl: usize, token: usize },
    /// A clause that is none of its predicate.
    BadClause { decl: usize, clause: usize },
    /// A clause in which a predicate of the group stands negatively.
    NotPositive { decl: usize, clause: usize },
    /// A recursion that isn't structural.
    NotStructural { decl: usize },
    /// A recursive group whose members have too many parameters.
    GroupTooWide { decl: usize },
    /// An algebraic type without finite values.
    Uninhabited { decl: usize },
    /// An element of a clone that doesn't fit what it replaces.
    BadSubstitution { decl: usize, token: usize },
}

impl From<AllocError> for SourceFault {
    ghost use Rattle.std.specs.Prelude.{◌≡◌};
    ghost use Rattle.theory_states.specs.declared.fault.SourceFault.TheVariants.{Memory as NoMemory};

    ghost from_gives = { λ _ e. e ≡ NoMemory };

    fn from(_: AllocError) -> SourceFault {
        SourceFault::Memory
    }
}

impl<T: Drop> From<AllocFailed<T>> for SourceFault {
    ghost use Rattle.std.specs.Prelude.{◌≡◌};
    ghost use Rattle.theory_states.specs.declared.fault.SourceFault.TheVariants.{Memory as NoMemory};

    ghost from_gives = { λ _ e. e ≡ NoMemory };

    fn from(_: AllocFailed<T>) -> SourceFault {
        SourceFault::Memory
    }
}
