//! Reads drivers, one a line with the files that it may import, and says of each what it gives or its first fault.
#![tactic(auto)]

mod answers;
mod given;
mod lines;
mod showing;

use answers::answer;
use std::io;

fn main(rt: HostRuntime) -> io::Result<()> {
    let alloc = rt.alloc();
    for line in rt.lines(alloc) {
        let text = answer(alloc, line?.as_str())?;
        println!(rt; "{text}")?;
    }
    Ok(())
}
