// Tables tested: the verdict, k, and the allowance in each of the 16 places.

use crate::shown::{Figures, Listed, Said};
use crate::tables::{falling, first, full, table_of};
use allowance::test;
use std::io;
use table::Table;

fn each(rt: &impl Print, tables: &[Table]) -> io::Result<()> {
    for x in tables {
        let r = test(*x);
        println!(rt;
            "test {} -> {}, {}:{}",
            Figures(x),
            Said(r.verdict),
            r.k,
            Listed(&r.each)
        )?;
    }
    Ok(())
}

// Either side of the line, and the example of source 000, section 3.
fn line(rt: &impl Print) -> io::Result<()> {
    each(
        rt,
        &[
            first(),
            table_of(&[(2, 4, 4), (2, 5, 5)]),
            table_of(&[(2, 4, 4), (3, 7, 7)]),
            table_of(&[(2, 4, 4), (3, 7, 6)]),
            table_of(&[(1, 2, 2), (1, 2, 2)]),
            table_of(&[(1, 3, 3), (2, 5, 5), (1, 15, 15)]),
            table_of(&[(1, 1, 1)]),
            table_of(&[(1, 4, 2), (1, 4, 3), (2, 8, 8)]),
        ],
    )
}

// The longest periods, and 16 rows.
fn limits(rt: &impl Print) -> io::Result<()> {
    each(
        rt,
        &[
            table_of(&[(1, 4096, 4096)]),
            table_of(&[(4096, 4096, 4096)]),
            table_of(&[(1, 2, 2), (2048, 4096, 4096)]),
            table_of(&[(1, 2, 2), (2049, 4096, 4096)]),
            full(),
            table_of(&[(256, 4096, 4096); 16]),
            table_of(&[(257, 4096, 4096); 16]),
        ],
    )
}

fn badly_formed(rt: &impl Print) -> io::Result<()> {
    each(
        rt,
        &[Table::zeros(0), table_of(&[(1, 4097, 4096)]), falling()],
    )
}

pub(crate) fn all(rt: &impl Print) -> io::Result<()> {
    line(rt)?;
    limits(rt)?;
    badly_formed(rt)
}
