// What is wrong with a declaration.
// It depends on std alone.
use std::alloc::AllocError;

/// What is wrong with a declaration, or want of memory.
#[derive(Clone, Copy)]
pub enum CheckFault {
    Memory,
    /// The form or the type variables of a clause of an inductive predicate, counted from 0 through its group.
    BadClause { clause: usize },
    /// A predicate of the group is in such a clause where it may not.
    NotPositive { clause: usize },
    /// No choice of arguments makes a recursive group structural.
    NotStructural,
    /// A recursive group has more than 4,096 choices of arguments.
    GroupTooWide,
    /// A type of an algebraic group has no finite value.
    Uninhabited,
}

impl From<AllocError> for CheckFault {
    ghost use Rattle.std.specs.Prelude.{◌≡◌};
    ghost use Rattle.checks.specs.declared.decl_checks.fault.CheckFault.TheVariants.{Memory as NoMemory};

    ghost from_gives = { λ _ e. e ≡ NoMemory };

    fn from(_: AllocError) -> CheckFault {
        CheckFault::Memory
    }
}
