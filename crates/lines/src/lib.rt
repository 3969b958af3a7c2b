// The lines that the listing prints, as bytes. A usize goes to u64 by `as`: the library has no From there, and `try_from` would give an Err
// that cannot come.

#![tactic(auto)]

ghost use Rattle.std.specs.Prelude.{◌≡◌};
ghost use Rattle.text.specs.Text.{line_of, extended};
ghost use Rattle.lines.specs.Lines.{spaced, use_text, slot_line, refused_line, bad_line, total_line, long_line};

use text::{Line, blank, put, put_number};
use uses::Use;

#[tactic(auto, using(text::proofs::Laid::extended_twice))]
fn put_spaced(line: Line, x: u64) -> Line
    ensures { result ≡ extended line (spaced x) }
{
    put_number(put(line, b" "), x)
}

#[tactic(auto, using(text::proofs::Laid::extended_twice), unfolding(crate::specs::Lines::use_text))]
fn put_use(line: Line, used: Use) -> Line
    ensures { result ≡ extended line (use_text used) }
{
    match used {
        Use::Hard(row) => put_number(put(line, b"H"), row as u64),
        Use::Given(name) => put_number(put(line, b"N"), u64::from(name)),
        Use::Empty => put(line, b"E"),
        Use::Lost => put(line, b"L"),
    }
}

#[tactic(auto, using(text::proofs::Laid::line_put))]
pub fn slot_line(slot: u64, used: Use, word: u16) -> Line
    ensures { result ≡ line_of (slot_line slot used word) }
{
    let line = put_number(blank(), slot);
    let line = put(line, b" ");
    let line = put_use(line, used);
    put(put_spaced(line, u64::from(word)), b"\n")
}

// Numbers, and no `Refusal`: it is the line of any number, and a slot or a request is refused with row 0 whatever it names.
#[tactic(auto, using(text::proofs::Laid::line_put))]
pub fn refused_line(number: u8, row: usize) -> Line
    ensures { result ≡ line_of (refused_line number row) }
{
    let line = put(blank(), b"refused");
    let line = put_spaced(line, u64::from(number));
    put(put_spaced(line, row as u64), b"\n")
}

#[tactic(auto, using(text::proofs::Laid::line_put))]
pub fn bad_line(offset: usize) -> Line
    ensures { result ≡ line_of (bad_line offset) }
{
    let line = put(blank(), b"bad");
    put(put_spaced(line, offset as u64), b"\n")
}

// Five numbers, and no struct of them: they are printed in this order, once.
#[tactic(auto, using(text::proofs::Laid::line_put, crate::proofs::Counted::counted_more))]
pub fn total_line(hard: u64, given: u64, empty: u64, lost: u64, late: u64) -> Line
    ensures { result ≡ line_of (total_line hard given empty lost late) }
{
    let mut line = put(blank(), b"total");
    for x in [hard, given, empty, lost, late] {
        line = put_spaced(line, x);
    }
    put(line, b"\n")
}

#[tactic(auto, using(text::proofs::Laid::line_put))]
pub fn long_line() -> Line
    ensures { result ≡ line_of long_line }
{
    put(blank(), b"long\n")
}
