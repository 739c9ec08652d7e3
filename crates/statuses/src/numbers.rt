// The numbers of a fault: its code, then its fields.
// They depend on the faults; the line of a refusal depends on them.
ghost use Rattle.std.specs.Prelude.{◌≡◌, ◌++◌, OnOk};
ghost use Rattle.statuses.specs.Faults.{numbers};
ghost use Rattle.statuses.specs.Lines.{spaced_numbers};

use crate::fault_order::Fault;
use crate::lines::push_numbers;
use std::alloc::{AllocError, Global};

/// Appends a fault's code and its fields in order, a blank before each.
pub fn push_fault(alloc: Global, text: &mut Vec<u8>, fault: Fault) -> Result<(), AllocError>
    ensures { OnOk result (text.new.items ≡ text.old.items ++ spaced_numbers (numbers fault)) }
{
    match fault {
        Fault::Lexical { byte } => push_numbers(alloc, text, &[10, byte]),
        Fault::BigLiteral { byte } => push_numbers(alloc, text, &[11, byte]),
        Fault::Syntax { token } => push_numbers(alloc, text, &[12, token]),
        Fault::TooDeep { token } => push_numbers(alloc, text, &[13, token]),
        Fault::ProgramDecl { token } => push_numbers(alloc, text, &[14, token]),
        Fault::TooLong { file } => push_numbers(alloc, text, &[15, file]),
        Fault::Unknown { decl, token } => push_numbers(alloc, text, &[20, decl, token]),
        Fault::Duplicate { decl, token } => push_numbers(alloc, text, &[21, decl, token]),
        Fault::WrongKind { decl, token } => push_numbers(alloc, text, &[22, decl, token]),
        Fault::Arity { decl, token } => push_numbers(alloc, text, &[23, decl, token]),
        Fault::Clash { decl, k } => push_numbers(alloc, text, &[30, decl, k]),
        Fault::Undetermined { decl, token } => push_numbers(alloc, text, &[31, decl, token]),
        Fault::NotExhaustive { decl, token } => push_numbers(alloc, text, &[32, decl, token]),
        Fault::BadClause { decl, clause } => push_numbers(alloc, text, &[33, decl, clause]),
        Fault::NotPositive { decl, clause } => push_numbers(alloc, text, &[34, decl, clause]),
        Fault::NotStructural { decl } => push_numbers(alloc, text, &[35, decl]),
        Fault::GroupTooWide { decl } => push_numbers(alloc, text, &[36, decl]),
        Fault::Uninhabited { decl } => push_numbers(alloc, text, &[37, decl]),
        Fault::BadSubstitution { decl, token } => push_numbers(alloc, text, &[40, decl, token]),
        Fault::DriverSyntax { file, byte } => push_numbers(alloc, text, &[50, file, byte]),
        Fault::UnknownTransformation { file, byte } => push_numbers(alloc, text, &[51, file, byte]),
        Fault::BadTemplate { file, byte } => push_numbers(alloc, text, &[52, file, byte]),
        Fault::UnknownSymbol { file, byte } => push_numbers(alloc, text, &[53, file, byte]),
        Fault::ImportCycle { file, byte } => push_numbers(alloc, text, &[54, file, byte]),
        Fault::UnknownPrinter { file, byte } => push_numbers(alloc, text, &[55, file, byte]),
        Fault::NoTheory => push_numbers(alloc, text, &[60]),
        Fault::NoGoal => push_numbers(alloc, text, &[61]),
        Fault::Misplaced { stage, decl } => push_numbers(alloc, text, &[70, stage, decl]),
        Fault::TooLarge { stage } => push_numbers(alloc, text, &[71, stage]),
        Fault::Polymorphic { part, decl } => push_numbers(alloc, text, &[80, part, decl]),
        Fault::Unprintable { part, decl } => push_numbers(alloc, text, &[81, part, decl]),
        Fault::NoSyntax { part, symbol } => push_numbers(alloc, text, &[82, part, symbol]),
        Fault::PartCount { want, have } => push_numbers(alloc, text, &[90, want, have]),
        Fault::WrongLine { part, line } => push_numbers(alloc, text, &[91, part, line as usize]),
    }
}
