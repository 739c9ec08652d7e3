//! Runs the whole program over the files of each line, and prints the code of the status and what both sinks gained.
#![tactic(auto)]

mod answers;
mod row;

use answers::describe;
use std::io;

fn main(rt: HostRuntime) -> io::Result<()> {
    let alloc = rt.alloc();
    for line in rt.lines(alloc) {
        let text = describe(alloc, line?.as_str())?;
        println!(rt; "{text}")?;
    }
    Ok(())
}
