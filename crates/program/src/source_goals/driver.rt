// The driver, from its files.
// It depends on the reader of drivers; a goal under a driver depends on it.
ghost use Rattle.std.specs.Prelude.{◌≡◌};
ghost use Rattle.statuses.specs.fault_order.Answers.{Answers};
ghost use Rattle.program.specs.source_goals.Known.{KnownByDriver, IsKnownAs};
ghost use Rattle.program.specs.source_goals.Order.{DriverOf};
ghost use Rattle.program.specs.source_goals.Values.{driver_fault, next_after_driver};

use drivers::driver_files::{Driver, DriverFault, read_driver};
use statuses::fault_order::{Fault, Library, RunFault};
use std::alloc::Global;
use tasks::Signature;

// Why there is no text, where no driver is read.
fn driver_fault(fault: DriverFault) -> RunFault
    ensures { result ≡ driver_fault fault }
{
    match fault {
        DriverFault::Memory => RunFault::Memory,
        DriverFault::Absent { file } => RunFault::Absent { file },
        DriverFault::ReadFault { file } => RunFault::ReadFault { file },
        DriverFault::TooLong { file } => RunFault::Refused(Fault::TooLong { file }),
        DriverFault::DriverSyntax { file, byte } => {
            RunFault::Refused(Fault::DriverSyntax { file, byte })
        }
        DriverFault::UnknownTransformation { file, byte } => {
            RunFault::Refused(Fault::UnknownTransformation { file, byte })
        }
        DriverFault::BadTemplate { file, byte } => {
            RunFault::Refused(Fault::BadTemplate { file, byte })
        }
        DriverFault::UnknownSymbol { file, byte } => {
            RunFault::Refused(Fault::UnknownSymbol { file, byte })
        }
        DriverFault::ImportCycle { file, byte } => {
            RunFault::Refused(Fault::ImportCycle { file, byte })
        }
        DriverFault::UnknownPrinter { file, byte } => {
            RunFault::Refused(Fault::UnknownPrinter { file, byte })
        }
    }
}

/// The driver of a file, whose number is 1, over what is known.
pub fn fetch_driver<L: Library>(
    alloc: Global,
    lib: &mut L,
    sig: &Signature,
    theories: &[(String, Vec<String>)],
    drv: &str,
) -> Result<Driver, RunFault>
    ensures { (known : KnownByDriver) → IsKnownAs known sig.now.symbols theories.now
        → Answers (DriverOf known drv.now) 1 next_after_driver (L.state lib.old) (L.state lib.new)
        result }
{
    match read_driver(alloc, lib, sig, theories, drv) {
        Ok(driver) => Ok(driver),
        Err(fault) => Err(driver_fault(fault)),
    }
}
