// Records read.

use crate::shown::{Listed, ReadAs};
use record::read;
use std::io;

fn each(rt: &impl Print, records: &[&[u8]]) -> io::Result<()> {
    for s in records {
        println!(rt; "read{} -> {}", Listed(s), ReadAs(read(s)))?;
    }
    Ok(())
}

// The record of document 01's listing, one byte more and one byte less; and numbers of two bytes.
fn whole(rt: &impl Print) -> io::Result<()> {
    let more = [
        1, 0, 19, 3, 0, 1, 0, 3, 0, 3, 0, 1, 0, 4, 0, 4, 0, 1, 0, 6, 0, 6, 0,
    ];
    each(
        rt,
        &[
            &more[..22],
            &more,
            &more[..21],
            &[1, 0, 7, 1, 0, 1, 1, 0, 1, 0],
        ],
    )
}

fn head(rt: &impl Print) -> io::Result<()> {
    each(
        rt,
        &[
            &[],
            &[2, 0, 0],
            &[2, 0, 7, 1, 0, 1, 0, 3, 0, 3],
            &[1, 1, 7, 1, 0, 1, 0, 3, 0, 3],
            &[1, 0, 7, 0, 0, 1, 0, 3, 0, 3],
            &[1, 0, 1, 0],
        ],
    )
}

fn form(rt: &impl Print) -> io::Result<()> {
    each(
        rt,
        &[
            &[1, 0, 7, 1, 0, 1, 16, 1, 16, 0],
            &[1, 0, 13, 2, 0, 1, 0, 5, 0, 5, 0, 1, 0, 4, 0, 4],
        ],
    )
}

// 17 rows, with the length field of 17 rows and with that of 16.
fn seventeen(rt: &impl Print) -> io::Result<()> {
    let mut rows = [0; 106];
    rows[..4].copy_from_slice(&[1, 0, 103, 17]);
    let mut fewer = [0; 100];
    fewer[..4].copy_from_slice(&[1, 0, 97, 17]);
    each(rt, &[&rows, &fewer])
}

pub(crate) fn all(rt: &impl Print) -> io::Result<()> {
    whole(rt)?;
    head(rt)?;
    form(rt)?;
    seventeen(rt)
}
