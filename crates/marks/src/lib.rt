// Words with a bit for each row, bit 0 for row 1: the rows whose period begins, those whose deadline ends, those that are late.

#![tactic(auto)]

ghost use Rattle.std.specs.Prelude.{◌≡◌, ◌+◌, ◌*◌, ◌^◌, ◌%◌, ◌<◌};
ghost use Rattle.std.specs.Int.Count.{ones};
ghost use Rattle.seq.specs.Places.{flag};
ghost use Rattle.marks.specs.Words.{due_word, end_word, late_word};

use seq::{has, top};

// The remainder, and m where p is 0.
fn remainder(m: u64, p: u64) -> u64
    ensures { result ≡ m % p }
{
    m.checked_rem(p).unwrap_or(m)
}

// The word with bit i as told, where it has no bit from i on.
fn with_bit(w: u16, i: usize, on: bool) -> u16
    requires { (i < 16) × (w < 2 ^ i) }
    ensures { result ≡ w + 2 ^ i * flag on }
{
    if on { w | (1 << i) } else { w }
}

// The word one place up, with a new bit 0, where its top place is free.
fn pushed(w: u16, on: bool) -> u16
    requires { w < 2 ^ 15 }
    ensures { result ≡ flag on + 2 * w }
{
    if on { (w << 1) | 1 } else { w << 1 }
}

#[derive(Clone, Copy)]
pub struct Marks {
    pub due: u16,
    pub end: u16,
}

// After m slots: the rows whose period begins in the next, and those whose deadline ends with it. One remainder a row, and from
// the last row on, so that no bit has to be placed.
pub fn mark(t: &[u16; 16], d: &[u16; 16], n: usize, m: u64) -> Marks
    ensures { result ≡ record { due = due_word m n t.now; end = end_word m n t.now d.now } }
{
    let mut due: u16 = 0;
    let mut end: u16 = 0;
    for i in (0..n.min(16)).rev() {
        let r = remainder(m, u64::from(t[i]));
        let last = u64::from(d[i].saturating_sub(1));
        due = pushed(due, r == 0);
        end = pushed(end, r == last);
    }
    Marks { due, end }
}

// A loop of its own, into a word: see `late::count_late`.
pub fn late_word(left: &[u16; 16], end: u16) -> u16
    ensures { result ≡ late_word end left.now }
{
    let m = top(end);
    let mut w: u16 = 0;
    for i in 0..m {
        w = with_bit(w, i, has(end, i) & (0 < left[i]));
    }
    w
}

pub fn late_rows(w: u16) -> u32
    ensures { result ≡ ones w }
{
    w.count_ones()
}
