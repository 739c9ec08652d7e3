// The files of a driver, by their numbers, and their lines.
// They depend on the library; the reading of files depends on them.
ghost use Rattle.std.specs.Prelude.{◌+◌};
ghost use Rattle.drivers.specs.driver_files.Calls.{HasLines, bytes_of_result};
ghost use Rattle.drivers.specs.driver_files.Reading.{ReadsAs, short_file};

use crate::driver_parts::DriverFault;
use crate::driver_tokens::{DriverSyntaxFault, DriverText, read_lines};
use outside::{FetchFault, Library};
use std::alloc::Global;

// One byte more than a file may have.
const MOST: usize = 67_108_865;

/// A file of at most 67,108,864 bytes, which is fetched with this number.
pub fn fetch_file<L: Library>(lib: &mut L, file: usize, name: &str) -> Result<Vec<u8>, DriverFault>
    ensures { ReadsAs (short_file file name.now) file (λ _. file + 1) (L.state lib.old)
        (L.state lib.new) (bytes_of_result result) }
{
    match lib.fetch(name, MOST) {
        Ok(bytes) => {
            if bytes.len() == MOST {
                Err(DriverFault::TooLong { file })
            } else {
                Ok(bytes)
            }
        }
        Err(FetchFault::Memory) => Err(DriverFault::Memory),
        Err(FetchFault::Absent) => Err(DriverFault::Absent { file }),
        Err(FetchFault::Failed) => Err(DriverFault::ReadFault { file }),
    }
}

/// The lines of a file's bytes.
pub fn lines_of(alloc: Global, file: usize, text: &[u8]) -> Result<DriverText, DriverFault>
    ensures { HasLines file text.now result }
{
    match read_lines(alloc, text) {
        Ok(its) => Ok(its),
        Err(DriverSyntaxFault::Memory) => Err(DriverFault::Memory),
        Err(DriverSyntaxFault::Syntax { byte }) => Err(DriverFault::DriverSyntax { file, byte }),
    }
}
