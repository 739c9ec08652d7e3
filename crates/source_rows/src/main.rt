//! Reads sources, one a line, and says of each that it is right, its first fault, the task of a goal of it, or what the
//! last declaration of its first theory becomes.
#![tactic(auto)]

mod answers;
mod declarations;
mod made;
mod sides;

use std::alloc::{AllocError, Global};
use std::io;

// The answer to a line: after `last` it is about the last declaration of a theory, else about a source.
fn describe(alloc: Global, line: &str) -> Result<String, AllocError> {
    match line.strip_prefix("last ") {
        Some(rest) => declarations::describe(alloc, rest),
        None => answers::describe(alloc, line),
    }
}

fn main(rt: HostRuntime) -> io::Result<()> {
    let alloc = rt.alloc();
    for line in rt.lines(alloc) {
        let text = describe(alloc, line?.as_str())?;
        println!(rt; "{text}")?;
    }
    Ok(())
}
