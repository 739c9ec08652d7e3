//! Compares the table of faults in `data/FAULTS.md` with what `explain` says of each code.
#![tactic(auto)]

mod answers;
mod law;
mod row;

use answers::describe;
use std::{fs, io};

fn main(rt: HostRuntime) -> io::Result<()> {
    law::each_fault_is_explained();
    let document = fs::read_to_string(&rt, "FAULTS.md")?;
    let text = describe(rt.alloc(), document.as_str())?;
    print!(rt; "{text}")?;
    Ok(())
}
