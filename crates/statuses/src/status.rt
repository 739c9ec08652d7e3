// How a run ends, with its exit code.
// It depends on the order of faults; the lines depend on it.
ghost use Rattle.std.specs.Prelude.{◌≡◌};
ghost use Rattle.statuses.specs.Code.{code_of};

use crate::fault_order::Fault;

/// How a run ends.
#[derive(Clone, Copy)]
pub enum Status {
    /// The text was written.
    Done,
    /// The input is refused, and the line says why.
    Refused(Fault),
    /// The words aren't those of a command.
    Usage,
    /// There is no memory.
    Memory,
    /// A file isn't there, by its number in the order of fetching.
    Absent { file: usize },
    /// A file can't be read.
    ReadFault { file: usize },
    /// A sink took no more.
    WriteFault,
}

impl Status {
    /// The exit code: 0 done, 1 refused, 2 usage, 3 memory, 4 a file, 5 a sink.
    pub fn code(&self) -> u8
        ensures { result ≡ code_of self.now }
    {
        match self {
            Status::Done => 0,
            Status::Refused(_) => 1,
            Status::Usage => 2,
            Status::Memory => 3,
            Status::Absent { file: _ } => 4,
            Status::ReadFault { file: _ } => 4,
            Status::WriteFault => 5,
        }
    }
}
