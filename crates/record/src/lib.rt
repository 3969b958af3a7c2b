// The record of a table, and how it is read. `writer` writes it.

#![tactic(auto)]

ghost use Rattle.std.specs.Prelude.{◌≡◌, ◌≤◌, length};
ghost use Rattle.seq.specs.Places.{at};
ghost use Rattle.table.specs.Verdicts.{granted};
ghost use Rattle.record.specs.Record.{row_place, row_spelt, spelt, head_verdict, read_verdict, read_of};

use seq::{big, byte};
use table::{Refusal, Row, Table, Verdict, refuse};

// The verdict stands beside the table, and no Result holds it: document 01 gives the all-zero table with a refusal.
#[derive(Clone, Copy)]
pub struct Reading {
    pub verdict: Verdict,
    pub table: Table,
}

// Length 0 where it is refused: `RestStays` speaks of it then, too.
#[derive(Clone, Copy)]
pub struct Written {
    pub verdict: Verdict,
    pub length: usize,
}

// Refusals 1, 2 and 3.
#[tactic(auto, unfolding(crate::specs::Record::head_verdict))]
fn head(s: &[u8]) -> Verdict
    ensures { result ≡ head_verdict s.now }
{
    if s.len() < 4 {
        return Err(Refusal::RecordShort);
    }
    let version = byte(s, 0);
    refuse(version != 1, Refusal::VersionUnknown)?;
    let field = usize::from(big(&s[1..3]));
    let n = usize::from(byte(s, 3));
    let fits = (field == s.len() - 3) & (field == 1 + 6 * n);
    refuse(!fits, Refusal::LengthWrong)
}

// The three numbers of a row's own six bytes.
fn row_in(p: &[u8]) -> Row
    requires { length p.now ≡ 6 }
    ensures { result ≡ row_spelt p.now }
{
    let c = big(&p[0..2]);
    let t = big(&p[2..4]);
    let d = big(&p[4..6]);
    Row { c, t, d }
}

// The rows of a record, of which there are bytes enough.
fn table_in(s: &[u8]) -> Table
    requires { row_place (at s.now 3) ≤ length s.now }
    ensures { result ≡ spelt s.now }
{
    let n = usize::from(byte(s, 3));
    let mut x = Table::zeros(n);
    for i in 0..n.min(16) {
        let a = 4 + 6 * i;
        let r = row_in(&s[a..a + 6]);
        x.c[i] = r.c;
        x.t[i] = r.t;
        x.d[i] = r.d;
    }
    x
}

// The table, or the first of 1 to 6.
#[tactic(auto, unfolding(crate::specs::Record::read_verdict))]
fn table_read(s: &[u8]) -> Result<Table, Refusal>
    ensures { result ≡ granted (read_verdict s.now) (spelt s.now) }
{
    head(s)?;
    let x = table_in(s);
    x.form()?;
    Ok(x)
}

#[tactic(auto, unfolding(crate::specs::Record::read_of))]
pub fn read(s: &[u8]) -> Reading
    ensures { result ≡ read_of s.now }
{
    match table_read(s) {
        Ok(table) => Reading {
            verdict: Ok(()),
            table,
        },
        Err(why) => Reading {
            verdict: Err(why),
            table: Table::zeros(0),
        },
    }
}
