// Why no driver is read.
// It depends on nothing; the reader answers it.
ghost use Rattle.std.specs.Prelude.{◌≡◌};
ghost use Rattle.drivers.specs.declared.driver_parts.fault.DriverFault.TheVariants.{Memory as NoMemory};

use std::alloc::{AllocError, AllocFailed};

/// Why no driver is read. Files count in the order in which they are fetched, the driver's own being 1; bytes count from 0.
///
/// - `Memory`: memory ran out.
/// - `Absent`: there is no such file.
/// - `ReadFault`: this file can't be read.
/// - `TooLong`: this file has more than 67,108,864 bytes.
/// - `DriverSyntax`: no driver file allows the token at this byte there, or no token begins there; the file's length, where
///   it ends too early.
/// - `UnknownTransformation`: the string at this byte names no transformation.
/// - `BadTemplate`: the template at this byte doesn't name each argument of the symbol exactly once, or there are more than
///   nine, or `%` is before something else.
/// - `UnknownSymbol`: the theory of the block is known and has nothing of this kind and name.
/// - `ImportCycle`: the file that is imported at this byte is being read, or 32 files are.
/// - `UnknownPrinter`: the string at this byte names no printer; or the driver names none, at the length of file 1.
#[derive(Clone, Copy)]
pub enum DriverFault {
    Memory,
    Absent { file: usize },
    ReadFault { file: usize },
    TooLong { file: usize },
    DriverSyntax { file: usize, byte: usize },
    UnknownTransformation { file: usize, byte: usize },
    BadTemplate { file: usize, byte: usize },
    UnknownSymbol { file: usize, byte: usize },
    ImportCycle { file: usize, byte: usize },
    UnknownPrinter { file: usize, byte: usize },
}

impl From<AllocError> for DriverFault {
    ghost from_gives = { λ _ e. e ≡ NoMemory };

    fn from(_: AllocError) -> Self {
        DriverFault::Memory
    }
}

impl<T: Drop> From<AllocFailed<T>> for DriverFault {
    ghost from_gives = { λ _ e. e ≡ NoMemory };

    fn from(_: AllocFailed<T>) -> Self {
        DriverFault::Memory
    }
}
