// Why a step file is not read.
// It depends on nothing; the readers of step files answer it.
use std::alloc::{AllocError, AllocFailed};

/// Why a step file is not read.
#[derive(Clone, Copy)]
pub enum ReadFault {
    Memory,
    /// The first wrong line, counted from 1.
    WrongLine { line: u64 },
}

impl From<AllocError> for ReadFault {
    ghost use Rattle.std.specs.Prelude.{◌≡◌};
    ghost use Rattle.step_reading.specs.declared.fault.ReadFault.TheVariants.{Memory};

    ghost from_gives = { λ _ e. e ≡ Memory };

    fn from(_: AllocError) -> ReadFault {
        ReadFault::Memory
    }
}

impl<T: Drop> From<AllocFailed<T>> for ReadFault {
    ghost use Rattle.std.specs.Prelude.{◌≡◌};
    ghost use Rattle.step_reading.specs.declared.fault.ReadFault.TheVariants.{Memory};

    ghost from_gives = { λ _ e. e ≡ Memory };

    fn from(_: AllocFailed<T>) -> ReadFault {
        ReadFault::Memory
    }
}
