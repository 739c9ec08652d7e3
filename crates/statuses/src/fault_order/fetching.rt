// The files that a run fetches, by their numbers.
// It depends on the library; the files of all parts of a run go through it.
ghost use Rattle.std.specs.Prelude.{◌+◌};
ghost use Rattle.statuses.specs.fault_order.Answers.{Answers, result_bytes};
ghost use Rattle.statuses.specs.fault_order.Order.{ShortFile, WholeFile};

use crate::fault_order::{Fault, RunFault};
use outside::{FetchFault, Library};

// One byte more than a file may have.
const MOST: usize = 67_108_865;

/// A file of at most 67,108,864 bytes, which is fetched with this number.
pub fn fetch_short<L: Library>(lib: &mut L, file: usize, name: &str) -> Result<Vec<u8>, RunFault>
    ensures { Answers (ShortFile file name.now) file (λ _. file + 1) (L.state lib.old)
        (L.state lib.new) (result_bytes result) }
{
    match lib.fetch(name, MOST) {
        Ok(bytes) => {
            if bytes.len() == MOST {
                Err(RunFault::Refused(Fault::TooLong { file }))
            } else {
                Ok(bytes)
            }
        }
        Err(FetchFault::Memory) => Err(RunFault::Memory),
        Err(FetchFault::Absent) => Err(RunFault::Absent { file }),
        Err(FetchFault::Failed) => Err(RunFault::ReadFault { file }),
    }
}

/// A whole file, which is fetched with this number.
pub fn fetch_whole<L: Library>(lib: &mut L, file: usize, name: &str) -> Result<Vec<u8>, RunFault>
    ensures { Answers (WholeFile file name.now) file (λ _. file + 1) (L.state lib.old)
        (L.state lib.new) (result_bytes result) }
{
    match lib.fetch(name, usize::MAX) {
        Ok(bytes) => Ok(bytes),
        Err(FetchFault::Memory) => Err(RunFault::Memory),
        Err(FetchFault::Absent) => Err(RunFault::Absent { file }),
        Err(FetchFault::Failed) => Err(RunFault::ReadFault { file }),
    }
}
