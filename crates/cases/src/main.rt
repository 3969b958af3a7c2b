// The worked cases of document 01 that are run and compared: a line for each, with what was tried and what came of it.

#![tactic(auto)]

mod allowances;
mod forms;
mod reads;
mod shown;
mod tables;
mod writes;

use std::io;

fn main(rt: HostRuntime) -> io::Result<()> {
    forms::all(&rt)?;
    reads::all(&rt)?;
    writes::all(&rt)?;
    allowances::all(&rt)
}
