// Lists, words and bytes: what several crates need and none of them owns.

#![tactic(auto)]

ghost use Rattle.std.specs.Prelude.{◌≡◌, cond, ◌&&◌, ◌||◌, ◌-◌, min};
ghost use Rattle.seq.specs.Places.{at};
ghost use Rattle.seq.specs.Words.{bit, top_of};
ghost use Rattle.seq.specs.Bytes.{big_at};

// `&`, `|`, `saturating_sub` and `min` under a contract that a law can name (proofs/OwnOutcomes). The crates above write the operations themselves.
pub fn both(a: bool, b: bool) -> bool
    ensures { result ≡ (a && b) }
{
    a & b
}

pub fn either(a: bool, b: bool) -> bool
    ensures { result ≡ (a || b) }
{
    a | b
}

// One less, and 0 stays.
pub fn less(x: u16) -> u16
    ensures { result ≡ x - 1 }
{
    x.saturating_sub(1)
}

pub fn lesser(a: usize, b: usize) -> usize
    ensures { result ≡ min a b }
{
    a.min(b)
}

// The byte at a place, 0 past the end.
pub fn byte(s: &[u8], p: usize) -> u8
    ensures { result ≡ at s.now p }
{
    s.get(p).copied().unwrap_or(0)
}

// The number of a part's first two bytes, the high one first.
pub fn big(s: &[u8]) -> u16
    ensures { result ≡ big_at s.now 0 }
{
    u16::from_be_bytes([byte(s, 0), byte(s, 1)])
}

// A function, and no `if` in place: of an `if` that joins before a store, proofs know the value by no name.
pub fn pick(on: bool, x: u16, y: u16) -> u16
    ensures { result ≡ cond on x y }
{
    if on { x } else { y }
}

// Bit i of a word, which has none from 16 on.
#[tactic(auto, using(crate::proofs::Words::bit_past), unfolding(crate::specs::Words::bit))]
pub fn has(w: u16, i: usize) -> bool
    ensures { result ≡ bit w i }
{
    i < 16 && (w >> i) % 2 == 1
}

// All bits from there on are 0: a walk over the set bits need go no further. `as`, for the library has no From of u32 to usize.
pub fn top(w: u16) -> usize
    ensures { result ≡ top_of w }
{
    16 - w.leading_zeros() as usize
}
