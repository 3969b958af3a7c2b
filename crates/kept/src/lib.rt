// The figures of a table and of its rows within their bounds.

#![tactic(auto)]

ghost use Rattle.std.specs.Prelude.{◌≡◌, cond, ◌&&◌, ◌||◌, ◌-◌, min, eqb, ltb, leb};
ghost use Rattle.seq.specs.Places.{at, every};
ghost use Rattle.table.specs.Form.{in_order, all_zero, rising};
ghost use Rattle.kept.specs.Kept.{table_legal, kept, rows_kept, lates_kept};

use seq::pick;

// Allowance, counter and work left. In a row of zeros they leave only zeros.
fn row_bounds(c: u16, d: u16, k: u16, left: u16, counter: u16) -> bool
    ensures { result ≡ (leb k (d - c) && leb counter k && leb left c) }
{
    (k <= d.saturating_sub(c)) & (counter <= k) & (left <= c)
}

// `Row::is_sound` without its branch, with which a slot with 1 row misses its bar: past the rows the same bounds leave only zeros.
fn row_sound(used: bool, c: u16, t: u16, d: u16) -> bool
    ensures { result ≡ cond used (in_order c t d) (all_zero c t d) }
{
    (pick(used, 1, 0) <= c) & (c <= d) & (d <= t) & (t <= pick(used, 4096, 0))
}

// All places take the same test in one walk, with no early way out; m and j are n and i in 16 bits, as wide as what is compared
// beside them: with i itself, cast, a request with 16 rows misses its bar. `as`, for m is at most 16. Seven figures, and no struct or state that holds them: see `engine`.
fn all_kept(
    n: usize,
    c: &[u16; 16],
    t: &[u16; 16],
    d: &[u16; 16],
    k: &[u16; 16],
    left: &[u16; 16],
    counter: &[u16; 16],
) -> bool
    ensures { result ≡ every 16 (kept n c.now t.now d.now k.now left.now counter.now) }
{
    let m = n.min(16) as u16;
    let mut ok = true;
    let mut j: u16 = 0;
    for i in 0..16 {
        ok &= row_sound(j < m, c[i], t[i], d[i])
            & row_bounds(c[i], d[i], k[i], left[i], counter[i]);
        j += 1;
    }
    ok
}

// No row's period is below the one before.
fn periods_rise(n: usize, t: &[u16; 16]) -> bool
    ensures { result ≡ every (min n 16) (rising t.now) }
{
    let mut ok = true;
    for i in 1..n.min(16) {
        ok &= t[i - 1] <= t[i];
    }
    ok
}

// As `Table::form`, but with no row to name and so no early way out; and the figures beside it.
pub fn rows_legal(
    n: usize,
    c: &[u16; 16],
    t: &[u16; 16],
    d: &[u16; 16],
    k: &[u16; 16],
    left: &[u16; 16],
    counter: &[u16; 16],
) -> bool
    ensures { result ≡ (table_legal n c.now t.now d.now
        && rows_kept n c.now d.now k.now left.now counter.now) }
{
    let kept = all_kept(n, c, t, d, k, left, counter);
    (1 <= n) & (n <= 16) & kept & periods_rise(n, t)
}

// A loop, and no `all`: what `all` says of its closure's calls did not lead to `every`. Compared only where there are rows; the rest need only be zero, which is the quicker test of numbers this wide.
fn lates_low(n: usize, ran: u64, late: &[u64; 16]) -> bool
    ensures { result ≡ every (min n 16) (λ i. leb (at late.now i) ran) }
{
    for x in &late[..n.min(16)] {
        if ran < *x {
            return false;
        }
    }
    true
}

fn lates_zero(n: usize, late: &[u64; 16]) -> bool
    ensures { result ≡ every 16 (λ i. ltb i n || eqb (at late.now i) 0) }
{
    let mut rest: u64 = 0;
    for i in n.min(16)..16 {
        rest |= late[i];
    }
    rest == 0
}

pub fn lates_kept(n: usize, ran: u64, late: &[u64; 16]) -> bool
    ensures { result ≡ lates_kept n ran late.now }
{
    lates_low(n, ran, late) & lates_zero(n, late)
}
