// What is put on the sinks, and the status with which a run ends.
// It depends on the lines; the top call depends on it.
ghost use Rattle.outside.specs.State.{PutsBytes};
ghost use Rattle.statuses.specs.fault_order.Answers.{result_bytes};
ghost use Rattle.statuses.specs.Putting.{FinishesRun, PutsText, Reports};

use crate::Status;
use crate::fault_order::RunFault;
use crate::lines::line_of;
use outside::{PutFault, Sink};
use std::alloc::Global;

const PIECE: usize = 65_536;

// Puts a whole text on a sink, in pieces.
fn put_all<W: Sink>(sink: &mut W, text: &[u8]) -> Result<(), PutFault>
    ensures { PutsBytes (W.state sink.old) text.now (W.state sink.new) result }
{
    let mut at = 0;
    while at < text.len() {
        let end = at + (text.len() - at).min(PIECE);
        sink.put(&text[at..end])?;
        at = end;
    }
    Ok(())
}

// Puts a text on a sink. Then this status is due.
fn put_text<W: Sink>(sink: &mut W, text: &[u8], due: Status) -> Status
    ensures { PutsText text.now due (W.state sink.old) (W.state sink.new) result }
{
    match put_all(sink, text) {
        Ok(()) => due,
        Err(PutFault::Memory) => Status::Memory,
        Err(PutFault::Failed) => Status::WriteFault,
    }
}

/// Ends a run with the line of a status, which the second sink gains.
pub fn report<E: Sink>(alloc: Global, err: &mut E, due: Status) -> Status
    ensures { Reports due (E.state err.old) (E.state err.new) result }
{
    match line_of(alloc, due) {
        Ok(line) => put_text(err, &line, due),
        Err(_) => Status::Memory,
    }
}

/// Ends a run: its text goes to the first sink; of what stops it a line goes to the second.
pub fn finish<W: Sink, E: Sink>(
    alloc: Global,
    text: Result<Vec<u8>, RunFault>,
    out: &mut W,
    err: &mut E,
) -> Status
    ensures { FinishesRun (result_bytes text) (W.state out.old) (W.state out.new) (E.state err.old)
        (E.state err.new) result }
{
    match text {
        Ok(text) => put_text(out, &text, Status::Done),
        Err(RunFault::Memory) => Status::Memory,
        Err(RunFault::Refused(fault)) => report(alloc, err, Status::Refused(fault)),
        Err(RunFault::Absent { file }) => report(alloc, err, Status::Absent { file }),
        Err(RunFault::ReadFault { file }) => report(alloc, err, Status::ReadFault { file }),
    }
}
