// Faults of a declaration as faults of its source.
// They depend on the faults of elaboration and of side conditions.
ghost use Rattle.std.specs.Prelude.{◌≡◌};
ghost use Rattle.theories.specs.declaring.Faults as faults;

use crate::side_conditions::SideFault;
use elab_groups::parts::ElabFault;
use elaboration_laws::CheckFault;
use theory_states::SourceFault;

/// A fault of the names or the types of a declaration, which has its number.
pub fn elaboration_fault(fault: ElabFault) -> SourceFault
    ensures { result ≡ faults.elaboration_fault fault }
{
    match fault {
        ElabFault::Memory => SourceFault::Memory,
        ElabFault::Unknown { decl, token } => SourceFault::Unknown { decl, token },
        ElabFault::Duplicate { decl, token } => SourceFault::Duplicate { decl, token },
        ElabFault::WrongKind { decl, token } => SourceFault::WrongKind { decl, token },
        ElabFault::Arity { decl, token } => SourceFault::Arity { decl, token },
        ElabFault::Clash { decl, k } => SourceFault::Clash { decl, k },
        ElabFault::Undetermined { decl, token } => SourceFault::Undetermined { decl, token },
    }
}

// A fault of the checks of the declaration of a number.
fn check_fault(decl: usize, fault: CheckFault) -> SourceFault
    ensures { result ≡ faults.check_fault decl fault }
{
    match fault {
        CheckFault::Memory => SourceFault::Memory,
        CheckFault::BadClause { clause } => SourceFault::BadClause { decl, clause },
        CheckFault::NotPositive { clause } => SourceFault::NotPositive { decl, clause },
        CheckFault::NotStructural => SourceFault::NotStructural { decl },
        CheckFault::GroupTooWide => SourceFault::GroupTooWide { decl },
        CheckFault::Uninhabited => SourceFault::Uninhabited { decl },
    }
}

/// A fault of the side conditions of the declaration of a number.
pub fn side_fault(decl: usize, fault: SideFault) -> SourceFault
    ensures { result ≡ faults.side_fault decl fault }
{
    match fault {
        SideFault::Memory => SourceFault::Memory,
        SideFault::NotExhaustive { token } => SourceFault::NotExhaustive { decl, token },
        SideFault::Check(fault) => check_fault(decl, fault),
    }
}
