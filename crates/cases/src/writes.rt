// Records written, and read back.

use crate::shown::{Figures, Listed, ReadAs, Said};
use crate::tables::{falling, first, full, table_of};
use record::read;
use std::io;
use table::Table;
use writer::write;

fn case(rt: &impl Print, x: Table, b: &mut [u8]) -> io::Result<()> {
    let w = write(x, b);
    println!(rt;
        "write {} into {} -> {}, {}:{}",
        Figures(&x),
        b.len(),
        Said(w.verdict),
        w.length,
        Listed(b)
    )
}

// Buffers hold nines before: as long as the record, longer, and one byte short. One after the other, for each has a length of its own.
fn room(rt: &impl Print) -> io::Result<()> {
    case(rt, first(), &mut [9; 22])?;
    case(rt, first(), &mut [9; 24])?;
    case(rt, first(), &mut [9; 21])?;
    case(rt, first(), &mut [9; 0])?;
    case(rt, table_of(&[(1, 256, 256)]), &mut [9; 10])?;
    case(rt, full(), &mut [9; 100])?;
    case(rt, full(), &mut [9; 99])
}

fn refused(rt: &impl Print) -> io::Result<()> {
    case(rt, Table::zeros(0), &mut [9; 4])?;
    case(rt, table_of(&[(1, 4097, 4096)]), &mut [9; 10])?;
    case(rt, falling(), &mut [9; 3])
}

#[tactic(auto, using(record::proofs::RoundTrip::written_fits))]
fn back(rt: &impl Print, x: Table, b: &mut [u8]) -> io::Result<()> {
    let w = write(x, b);
    let (written, _) = b.split_at(w.length);
    println!(rt;
        "write and read {} -> {}",
        Figures(&x),
        ReadAs(read(written))
    )
}

pub(crate) fn all(rt: &impl Print) -> io::Result<()> {
    room(rt)?;
    refused(rt)?;
    back(rt, first(), &mut [9; 24])?;
    back(rt, full(), &mut [9; 100])
}
