// How tables, verdicts and lists stand in a line.

use record::Reading;
use std::fmt;
use table::{Row, Table, Verdict, number_of, row_named};

// The number of rows, and each row that is not zero with its own number: a row past the last is seen too. By place, for a table is three arrays.
#[derive(Clone, Copy)]
pub struct Figures<'a>(pub &'a Table);

impl fmt::Display for Figures<'_> {
    fn fmt<W: fmt::Write>(&self, f: &mut fmt::Formatter<W>) -> fmt::Result {
        write!(f, "{} rows", self.0.n)?;
        for i in 0..16 {
            let Row { c, t, d } = self.0.row(i);
            if (c, t, d) != (0, 0, 0) {
                write!(f, " {}:{c},{t},{d}", i + 1)?;
            }
        }
        Ok(())
    }
}

// A verdict's number and the row that it names.
#[derive(Clone, Copy)]
pub struct Said(pub Verdict);

impl fmt::Display for Said {
    fn fmt<W: fmt::Write>(&self, f: &mut fmt::Formatter<W>) -> fmt::Result {
        write!(f, "{} {}", number_of(self.0), row_named(self.0))
    }
}

// What a record is read as.
#[derive(Clone, Copy)]
pub struct ReadAs(pub Reading);

impl fmt::Display for ReadAs {
    fn fmt<W: fmt::Write>(&self, f: &mut fmt::Formatter<W>) -> fmt::Result {
        write!(f, "{}, {}", Said(self.0.verdict), Figures(&self.0.table))
    }
}

// A space before each number, so that an empty list leaves none behind.
#[derive(Clone, Copy)]
pub struct Listed<'a, T>(pub &'a [T]);

impl<T: fmt::Display> fmt::Display for Listed<'_, T> {
    fn fmt<W: fmt::Write>(&self, f: &mut fmt::Formatter<W>) -> fmt::Result {
        for x in self.0 {
            write!(f, " {x}")?;
        }
        Ok(())
    }
}
