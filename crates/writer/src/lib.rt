// The record of a table, written into a lent buffer.

#![tactic(auto)]

ghost use Rattle.std.specs.Prelude.{◌≡◌, ◌++◌, ◌+◌, ◌≤◌, ◌<◌, length};
ghost use Rattle.std.proofs.lemmas.List.Edits.{sets};
ghost use Rattle.seq.specs.Bytes.{big_bytes};
ghost use Rattle.table.specs.Verdicts.{granted};
ghost use Rattle.record.specs.Record.{row_place, rows_bytes, head_bytes, write_verdict, written_of, buffer_of};

use record::Written;
use table::formed::Formed;
use table::{Refusal, Row, Table, refuse};

fn put_big(b: &mut [u8], p: usize, x: u16)
    requires { p + 1 < length b.old }
    ensures { b.new ≡ sets b.old p (big_bytes x) }
{
    b[p..p + 2].copy_from_slice(&x.to_be_bytes());
}

// `as`, for n is at most 16: `try_from` would give an Err that cannot come.
fn put_head(b: &mut [u8], x: &Formed)
    requires { 4 ≤ length b.old }
    ensures { b.new ≡ sets b.old 0 (head_bytes x.now.table.n) }
{
    let n = x.table.n;
    b[0] = 1;
    put_big(b, 1, (1 + 6 * n) as u16);
    b[3] = n as u8;
}

fn put_row(b: &mut [u8], p: usize, row: Row)
    requires { p + 6 ≤ length b.old }
    ensures { b.new ≡ sets b.old p (big_bytes row.c ++ big_bytes row.t ++ big_bytes row.d) }
{
    put_big(b, p, row.c);
    put_big(b, p + 2, row.t);
    put_big(b, p + 4, row.d);
}

fn put_rows(b: &mut [u8], x: &Formed)
    requires { row_place x.now.table.n ≤ length b.old }
    ensures { b.new ≡ sets b.old 4 (rows_bytes x.now.table x.now.table.n) }
{
    for i in 0..x.table.n {
        put_row(b, 4 + 6 * i, x.table.row(i));
    }
}

// The record of a table for which there is room, written; its length, or the first of 4, 5, 6 and 12.
#[tactic(auto, using(record::proofs::Record::record_put), unfolding(record::specs::Record::write_verdict, record::specs::Record::buffer_of))]
fn put_record(x: Table, b: &mut [u8]) -> Result<usize, Refusal>
    ensures { (result ≡ granted (write_verdict x (length b.old)) (row_place x.n)) × (b.new ≡ buffer_of x b.old) }
{
    let formed = x.formed()?;
    let length = 4 + 6 * x.n;
    refuse(b.len() < length, Refusal::BufferShort)?;
    put_head(b, &formed);
    put_rows(b, &formed);
    Ok(length)
}

// The record in the first bytes of the buffer; the rest stays, and so does all of it where the table is refused.
#[tactic(auto, using(table::proofs::Verdicts::granted_err), unfolding(record::specs::Record::written_of))]
pub fn write(x: Table, b: &mut [u8]) -> Written
    ensures { (result ≡ written_of x (length b.old)) × (b.new ≡ buffer_of x b.old) }
{
    match put_record(x, b) {
        Ok(length) => Written {
            verdict: Ok(()),
            length,
        },
        Err(why) => Written {
            verdict: Err(why),
            length: 0,
        },
    }
}
