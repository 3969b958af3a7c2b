// Tables and their form.

use crate::shown::{Figures, Said};
use crate::tables::{falling, first, full, table_of};
use std::io;
use table::Table;

fn each(rt: &impl Print, tables: &[Table]) -> io::Result<()> {
    for x in tables {
        println!(rt; "form {} -> {}", Figures(x), Said(x.form()))?;
    }
    Ok(())
}

fn taken(rt: &impl Print) -> io::Result<()> {
    each(
        rt,
        &[
            first(),
            table_of(&[(2, 4, 4), (2, 5, 5)]),
            table_of(&[(1, 2, 2), (1, 2, 2)]),
            table_of(&[(1, 4096, 4096)]),
            table_of(&[(4096, 4096, 4096)]),
            full(),
        ],
    )
}

fn count(rt: &impl Print) -> io::Result<()> {
    each(
        rt,
        &[
            Table::zeros(0),
            Table::zeros(17),
            Table {
                n: 0,
                ..table_of(&[(1, 3, 3)])
            },
        ],
    )
}

// Each way to break 1 ≤ C ≤ D ≤ T ≤ 4,096, and rows past n.
fn rows(rt: &impl Print) -> io::Result<()> {
    let second = Table {
        n: 1,
        ..table_of(&[(1, 3, 3), (1, 3, 3)])
    };
    let mut last = table_of(&[(1, 3, 3)]);
    last.d[15] = 1;
    each(
        rt,
        &[
            table_of(&[(1, 4097, 4096)]),
            table_of(&[(0, 3, 3)]),
            second,
            last,
            table_of(&[(1, 3, 3), (3, 4, 2)]),
            table_of(&[(1, 3, 3), (1, 4, 5)]),
        ],
    )
}

// All rows are tried for 5 before any for 6.
fn periods(rt: &impl Print) -> io::Result<()> {
    each(
        rt,
        &[
            falling(),
            table_of(&[(1, 3, 3), (1, 6, 6), (1, 5, 5)]),
            table_of(&[(1, 5, 5), (1, 4, 4), (5, 4, 4)]),
        ],
    )
}

pub(crate) fn all(rt: &impl Print) -> io::Result<()> {
    taken(rt)?;
    count(rt)?;
    rows(rt)?;
    periods(rt)
}
