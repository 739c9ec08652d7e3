//! Reads symbols, drivers and tasks, one a line, and says of each task which names, problem and text it has, or its fault.
#![tactic(auto)]

mod answers;
mod given;
mod held;
mod showing;
mod stack;

use answers::answer;
use given::Given;
use std::io;

fn main(rt: HostRuntime) -> io::Result<()> {
    let alloc = rt.alloc();
    let mut given = Given::new(alloc);
    for line in rt.lines(alloc) {
        let text = answer(alloc, &mut given, line?.as_str())?;
        println!(rt; "{text}")?;
    }
    Ok(())
}
