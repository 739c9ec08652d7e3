// Why a task isn't carried through the stages of a driver.
// It depends on nothing; the carrying of tasks answers it.
ghost use Rattle.std.specs.Prelude.{◌≡◌};
ghost use Rattle.stages.specs.Faults.{fault_at};
ghost use Rattle.stages.specs.declared.fault.CarryFault.TheVariants.{Memory as NoMemory};

use evidence::StageFault;
use std::alloc::{AllocError, AllocFailed};

/// Why a task isn't carried through. Stage 0 is the removals, and stage k is the driver's k-th transformation.
#[derive(Clone, Copy)]
pub enum CarryFault {
    Memory,
    /// The stage doesn't take the declaration with this place.
    Misplaced { stage: usize, decl: usize },
    /// After the stage a task is too large, or all are together.
    TooLarge { stage: usize },
}

impl From<AllocError> for CarryFault {
    ghost from_gives = { λ _ e. e ≡ NoMemory };

    fn from(_: AllocError) -> Self {
        CarryFault::Memory
    }
}

impl<T: Drop> From<AllocFailed<T>> for CarryFault {
    ghost from_gives = { λ _ e. e ≡ NoMemory };

    fn from(_: AllocFailed<T>) -> Self {
        CarryFault::Memory
    }
}

/// The fault of a transformation that is the stage with this number.
pub(crate) fn fault_at(stage: usize, fault: StageFault) -> CarryFault
    ensures { result ≡ fault_at stage fault }
{
    match fault {
        StageFault::Memory => CarryFault::Memory,
        StageFault::Misplaced { decl } => CarryFault::Misplaced { stage, decl },
        StageFault::TooLarge => CarryFault::TooLarge { stage },
    }
}
