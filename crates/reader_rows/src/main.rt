//! Reads texts, one a line, and says of each what the reader of sources answers: tokens, a fault with what completes it,
//! trees.
#![tactic(auto)]

mod answers;
mod lines;
mod readings;
mod tokens;

use answers::answer;
use std::io;

fn main(rt: HostRuntime) -> io::Result<()> {
    let alloc = rt.alloc();
    for line in rt.lines(alloc) {
        let text = answer(alloc, line?.as_str())?;
        println!(rt; "{text}")?;
    }
    Ok(())
}
