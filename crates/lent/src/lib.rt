// The face for C and Rust: numbers only. The kernel lends its state and finds the new one in the same place.

#![tactic(auto)]

ghost use Rattle.std.specs.Prelude.{◌≡◌, length};
ghost use Rattle.record.specs.Record.{read_of, written_of, buffer_of};
ghost use Rattle.allowance.specs.Test.{test_of};
ghost use Rattle.engine.specs.Slot.{slot_of};
ghost use Rattle.engine.specs.Calls.{request_of, late_total_of};
ghost use Rattle.engine.specs.Start.{start_of};
ghost use Rattle.engine.specs.Said.{said_of, is_on};
ghost use Rattle.lent.specs.Face.{told_face, request_told, read_face, wrote_face, tried_face, began_face, sum_face};

use engine::{Said, State};
use table::{Table, number_of, row_named};

// number: 0, or the refusal. row: the row that it names, from 1 on; 0 for none.
#[repr(C)]
#[derive(Clone, Copy)]
pub struct Told {
    pub number: u8,
    pub row: usize,
}

#[repr(C)]
#[derive(Clone, Copy)]
pub struct Ask {
    pub name: u16,
    pub size: u16,
}

#[repr(C)]
#[derive(Clone, Copy)]
pub struct Read {
    pub number: u8,
    pub row: usize,
    pub table: Table,
}

// length: the bytes that the record has, 0 where it was refused.
#[repr(C)]
#[derive(Clone, Copy)]
pub struct Wrote {
    pub number: u8,
    pub row: usize,
    pub length: usize,
}

// k: the common allowance. each: that of each row.
#[repr(C)]
#[derive(Clone, Copy)]
pub struct Tried {
    pub number: u8,
    pub k: u16,
    pub row: usize,
    pub each: [u16; 16],
}

#[repr(C)]
#[derive(Clone, Copy)]
pub struct Began {
    pub number: u8,
    pub row: usize,
    pub state: State,
}

#[repr(C)]
#[derive(Clone, Copy)]
pub struct Sum {
    pub number: u8,
    pub total: u64,
}

#[derive(Clone, Copy)]
pub struct RequestTold {
    pub state: State,
    pub answer: Told,
}

fn request_told(s: State, ask: Ask) -> RequestTold
    ensures { result ≡ request_told s ask }
{
    let r = engine::request(s, ask.name, ask.size);
    RequestTold {
        state: r.state,
        answer: Told {
            number: number_of(r.verdict),
            row: 0,
        },
    }
}

#[unsafe(no_mangle)]
pub extern "C" fn fjurke_slot(s: &mut State, lost: u8) -> Said
    ensures { (result ≡ said_of (slot_of s.old (is_on lost)).answer) × (s.new ≡ (slot_of s.old (is_on lost)).state) }
{
    let r = engine::slot_said(*s, lost);
    *s = r.state;
    r.answer
}

#[unsafe(no_mangle)]
pub extern "C" fn fjurke_request(s: &mut State, ask: Ask) -> Told
    ensures { (result ≡ told_face (request_of s.old ask.name ask.size)) × (s.new ≡ (request_of s.old ask.name ask.size).state) }
{
    let r = request_told(*s, ask);
    *s = r.state;
    r.answer
}

#[unsafe(no_mangle)]
pub extern "C" fn fjurke_read(s: &[u8]) -> Read
    ensures { result ≡ read_face (read_of s.now) }
{
    let r = record::read(s);
    Read {
        number: number_of(r.verdict),
        row: row_named(r.verdict),
        table: r.table,
    }
}

#[unsafe(no_mangle)]
pub extern "C" fn fjurke_write(x: Table, b: &mut [u8]) -> Wrote
    ensures { (result ≡ wrote_face (written_of x (length b.old))) × (b.new ≡ buffer_of x b.old) }
{
    let r = writer::write(x, b);
    Wrote {
        number: number_of(r.verdict),
        row: row_named(r.verdict),
        length: r.length,
    }
}

#[unsafe(no_mangle)]
pub extern "C" fn fjurke_test(x: Table) -> Tried
    ensures { result ≡ tried_face (test_of x) }
{
    let r = allowance::test(x);
    let each = r.each;
    Tried {
        number: number_of(r.verdict),
        k: r.k,
        row: row_named(r.verdict),
        each,
    }
}

#[unsafe(no_mangle)]
pub extern "C" fn fjurke_start(x: Table) -> Began
    ensures { result ≡ began_face (start_of x) }
{
    let r = engine::start(x);
    Began {
        number: number_of(r.verdict),
        row: row_named(r.verdict),
        state: r.state,
    }
}

#[unsafe(no_mangle)]
pub extern "C" fn fjurke_late_total(s: State) -> Sum
    ensures { result ≡ sum_face (late_total_of s) }
{
    let r = engine::late_total(s);
    Sum {
        number: number_of(r.verdict),
        total: r.total,
    }
}
