// The lines for the second sink, one for each status that asks for one.
// They depend on the numbers of faults; what is put on the sinks depends on them.
ghost use Rattle.std.specs.Prelude.{◌≡◌, ◌++◌, [], ◌∷◌, IfOk, OnOk};
ghost use Rattle.statuses.specs.Lines.{spaced_numbers, status_line};

use crate::Status;
use crate::fault_order::Fault;
use crate::numbers::push_fault;
use std::alloc::{AllocError, Global};

const USAGE: &str =
    "usage: why3lift print|names SRC DRV THEORY GOAL | lift SRC DRV THEORY GOAL REF... | check SRC THEORY GOAL DER | stress N";

/// Appends numbers, a blank before each.
pub fn push_numbers(alloc: Global, text: &mut Vec<u8>, numbers: &[usize]) -> Result<(), AllocError>
    ensures { OnOk result (text.new.items ≡ text.old.items ++ spaced_numbers numbers.now) }
{
    for number in numbers {
        text.push(b' ')?;
        let digits = number.to_string(alloc)?;
        text.extend_from_slice(digits.as_bytes())?;
    }
    Ok(())
}

fn numbered_line(alloc: Global, word: &str, numbers: &[usize]) -> Result<Vec<u8>, AllocError>
    ensures { IfOk result (λ v. v.items ≡ word.now ++ spaced_numbers numbers.now ++ 10 ∷ []) }
{
    let mut text = Vec::from_slice(alloc, word.as_bytes())?;
    push_numbers(alloc, &mut text, numbers)?;
    text.push(b'\n')?;
    Ok(text)
}

fn refused_line(alloc: Global, fault: Fault) -> Result<Vec<u8>, AllocError>
    ensures { IfOk result (λ v. v.items ≡ status_line (Status.Refused fault)) }
{
    let mut text = Vec::from_slice(alloc, b"refused:")?;
    push_fault(alloc, &mut text, fault)?;
    text.push(b'\n')?;
    Ok(text)
}

/// The line that a status asks for.
pub fn line_of(alloc: Global, status: Status) -> Result<Vec<u8>, AllocError>
    ensures { IfOk result (λ v. v.items ≡ status_line status) }
{
    match status {
        Status::Refused(fault) => refused_line(alloc, fault),
        Status::Absent { file } => numbered_line(alloc, "absent:", &[file]),
        Status::ReadFault { file } => numbered_line(alloc, "read fault:", &[file]),
        Status::Usage => numbered_line(alloc, USAGE, &[]),
        Status::Done => Ok(Vec::new(alloc)),
        Status::Memory => Ok(Vec::new(alloc)),
        Status::WriteFault => Ok(Vec::new(alloc)),
    }
}
