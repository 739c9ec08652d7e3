//! Reads blocks of lines, a theory and lines of a step file each, and says of each line what it makes and of each step
//! whether it is right; or of whole files whether they are read, and written as what is read.
#![tactic(auto)]

mod answers;
mod files;
mod given;
mod lines;
mod read;
mod words;

use answers::describe;
use std::io;

fn main(rt: HostRuntime) -> io::Result<()> {
    let alloc = rt.alloc();
    let mut block = Vec::new(alloc);
    for line in rt.lines(alloc) {
        let line = line?;
        if line.as_str().is_empty() {
            let text = describe(alloc, &block)?;
            println!(rt; "{text}")?;
            block = Vec::new(alloc);
        } else {
            block.push(line)?;
        }
    }
    Ok(())
}
