//! Reads systems of type equations, one a line, and prints what the asked unknowns are, or the equation that has no
//! solution.
#![tactic(auto)]

mod answers;
mod printing;

use answers::describe;
use std::io;

fn main(rt: HostRuntime) -> io::Result<()> {
    let alloc = rt.alloc();
    for line in rt.lines(alloc) {
        let text = describe(alloc, line?.as_str())?;
        println!(rt; "{text}")?;
    }
    Ok(())
}
