// Why a text is no driver file.
// It depends on nothing; the reader of lines answers it.
ghost use Rattle.std.specs.Prelude.{◌≡◌};
ghost use Rattle.drivers.specs.declared.driver_tokens.fault.DriverSyntaxFault.TheVariants.{Memory as NoMemory};

use std::alloc::{AllocError, AllocFailed};

/// Why a text is no driver file.
///
/// - `Memory`: memory ran out.
/// - `Syntax`: the token that begins at this byte is the first that no driver file allows there, or no token begins there;
///   the text's length, where it ends too early.
#[derive(Clone, Copy)]
pub enum DriverSyntaxFault {
    Memory,
    Syntax { byte: usize },
}

impl From<AllocError> for DriverSyntaxFault {
    ghost from_gives = { λ _ e. e ≡ NoMemory };

    fn from(_: AllocError) -> Self {
        DriverSyntaxFault::Memory
    }
}

impl<T: Drop> From<AllocFailed<T>> for DriverSyntaxFault {
    ghost from_gives = { λ _ e. e ≡ NoMemory };

    fn from(_: AllocFailed<T>) -> Self {
        DriverSyntaxFault::Memory
    }
}
