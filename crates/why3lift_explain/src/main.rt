//! `main` over the host.
#![tactic(auto)]

use outside::{HostLibrary, HostSink, PutFault, Sink};
use statuses::explain::{ExplainFault, explain_words};
use std::alloc::Global;
use std::env;
use std::io::ErrorKind;
use std::process::ExitCode;

// The words, the program's name first; none where there is no memory for them. Words that are no text count as none
// at all.
fn words_of(rt: &HostRuntime, alloc: Global) -> Option<Vec<String>> {
    let mut words = Vec::new(alloc);
    match env::args(rt) {
        Ok(args) => {
            for word in args {
                if words.push(word).is_err() {
                    return None;
                }
            }
            Some(words)
        }
        Err(e) => {
            if e.kind() == ErrorKind::InvalidData {
                Some(words)
            } else {
                None
            }
        }
    }
}

// Puts a text, and then this code is due.
fn put_text(sink: &mut HostSink, text: &[u8], code: u8) -> u8 {
    match sink.put(text) {
        Ok(()) => code,
        Err(PutFault::Memory) => 3,
        Err(PutFault::Failed) => 5,
    }
}

fn main(rt: HostRuntime) -> ExitCode {
    let alloc = rt.alloc();
    let mut out = HostSink::out(&rt);
    let mut err = HostSink::err(&rt);
    let Some(words) = words_of(&rt, alloc) else {
        return ExitCode::from(3);
    };
    let mut lib = HostLibrary::new(alloc, rt);
    ExitCode::from(match explain_words(alloc, &mut lib, &words) {
        Ok(message) => put_text(&mut out, &message, 0),
        Err(ExplainFault::Usage) => {
            put_text(
                &mut err,
                b"usage: why3lift-explain FILE CODE NUMBER...\n",
                2,
            )
        }
        Err(ExplainFault::Memory) => 3,
        Err(ExplainFault::Absent) => put_text(&mut err, b"absent\n", 4),
        Err(ExplainFault::ReadFault) => put_text(&mut err, b"read fault\n", 4),
    })
}
