// The command `stress`: whether the refutations of a made source are lifted.
// It depends on `lift` and on the made files; the top call depends on it.
ghost use Rattle.std.specs.Prelude.{◌≤◌, IfOk};
ghost use Rattle.program.specs.Order.{IsStressText};

use crate::lift::lift_goal;
use statuses::{RunFault, Status, line_of};
use std::alloc::{AllocError, Global};
use stress_gen::{StressLibrary, accepted_text, refutation_names};

/// What `lift` says of the made files with so many parts, 1 to 200: that all are lifted, or the line of what is in the way.
pub fn stress(alloc: Global, parts: u64) -> Result<Vec<u8>, AllocError>
    requires some { 1 ≤ parts }
    requires most { parts ≤ 200 }
    ensures { IfOk result (λ v. IsStressText parts v.items) }
{
    let mut lib = StressLibrary::new(alloc, parts)?;
    let lines = lib.lines();
    let names = refutation_names(alloc, parts)?;
    match lift_goal(alloc, &mut lib, "stress.why", "plain.drv", "S", "g", &names) {
        Ok(_) => accepted_text(alloc, parts, lines),
        Err(RunFault::Memory) => Err(AllocError),
        Err(RunFault::Refused(fault)) => line_of(alloc, Status::Refused(fault)),
        Err(RunFault::Absent { file }) => line_of(alloc, Status::Absent { file }),
        Err(RunFault::ReadFault { file: _ }) => unreachable!(),
    }
}
