// The test of a table, and the allowances of its rows.

#![tactic(auto)]

ghost use Rattle.std.specs.Prelude.{◌≡◌, ◌+◌, ◌*◌, ◌-◌, ◌≤◌, ◌<◌};
ghost use Rattle.seq.specs.Places.{at};
ghost use Rattle.law.specs.Sums.{ceil};
ghost use Rattle.law.specs.Work.{W};
ghost use Rattle.law.specs.Slack.{slack};
ghost use Rattle.table.specs.Verdicts.{granted};
ghost use Rattle.allowance.specs.Row.{room_of};
ghost use Rattle.allowance.specs.Test.{lacks_verdict, allowances, smallest, passed, test_verdict, test_of};

use table::formed::Formed;
use table::{Refusal, Table, Verdict};

// k is the smallest of the allowances, `each` has them all. Zero where the table is refused: `RefusedZero` says so, and the C face hands
// the zeros on; so the verdict stands beside the figures, and no Result holds them.
#[derive(Clone, Copy)]
pub struct Tested {
    pub verdict: Verdict,
    pub k: u16,
    pub each: [u16; 16],
}

// What one row needs in m slots.
#[tactic(auto, using(law::proofs::Sums::div_ceil_is, crate::proofs::Row::share_small))]
fn share(c: u16, t: u16, m: u64) -> u64
    requires { (c ≤ 4096) × (1 ≤ t) × (t ≤ 4096) × (m ≤ 4096) }
    ensures { (result ≡ c * ceil m t) × (result ≤ 33550336) }
{
    u64::from(c) * m.div_ceil(u64::from(t))
}

// What the rows before i need in m slots.
fn work(x: &Formed, i: usize, m: u64) -> u64
    requires { (i ≤ x.now.table.n) × (m ≤ 4096) }
    ensures { (result ≡ W (at x.now.table.c) (at x.now.table.t) i m) × (result ≤ 536805376) }
{
    let mut w: u64 = 0;
    for h in 0..i {
        w += share(x.table.c[h], x.table.t[h], m);
    }
    w
}

// One more than the largest number that row i holds; 0 if it does not hold 0.
fn slack_of(x: &Formed, i: usize) -> u64
    requires { i < x.now.table.n }
    ensures { result ≡ slack (at x.now.table.c) (at x.now.table.t) i (at x.now.table.d i) }
{
    let need = u64::from(x.table.c[i]);
    let due = u64::from(x.table.d[i]);
    let mut s: u64 = 0;
    for before in 0..due {
        let m = before + 1;
        let w = need + work(x, i, m);
        s = s.max((m + 1).saturating_sub(w));
    }
    s
}

// The largest number that row i holds, if it holds 0. `as`, for it is below the deadline: `try_from` would give an Err that cannot come.
fn row_room(x: &Formed, i: usize) -> Option<u16>
    requires { i < x.now.table.n }
    ensures { result ≡ room_of x.now.table.c x.now.table.t i (at x.now.table.d i) }
{
    let s = slack_of(x, i);
    if s == 0 {
        return None;
    }
    Some((s - 1) as u16)
}

// The allowances of all rows, or the first row that does not hold 0.
fn row_rooms(x: &Formed) -> Result<[u16; 16], Refusal>
    ensures { result ≡ granted (lacks_verdict x.now.table) (allowances x.now.table) }
{
    let mut each = [0; 16];
    for i in 0..x.table.n {
        let Some(k) = row_room(x, i) else {
            return Err(Refusal::RowLacks(i + 1));
        };
        each[i] = k;
    }
    Ok(each)
}

// The smallest of the rooms of its rows.
#[tactic(auto, using(crate::proofs::Smallest::smallest_next), unfolding(crate::specs::Test::smallest))]
fn least(each: &[u16; 16], x: &Formed) -> u16
    ensures { result ≡ smallest (at each.now) (x.now.table.n - 1) }
{
    let mut k = each[0];
    for i in 1..x.table.n {
        k = k.min(each[i]);
    }
    k
}

// What a well-formed table gets, or refusal 7.
#[tactic(auto, unfolding(crate::specs::Test::passed))]
fn allowed(x: &Formed) -> Result<Tested, Refusal>
    ensures { result ≡ granted (lacks_verdict x.now.table) (passed x.now.table) }
{
    let each = row_rooms(x)?;
    Ok(Tested {
        verdict: Ok(()),
        k: least(&each, x),
        each,
    })
}

// What an accepted table gets, or the first of 4, 5, 6 and 7.
#[tactic(auto, unfolding(crate::specs::Test::test_verdict))]
fn accepted(x: Table) -> Result<Tested, Refusal>
    ensures { result ≡ granted (test_verdict x) (passed x) }
{
    let formed = x.formed()?;
    allowed(&formed)
}

#[tactic(auto, using(table::proofs::Verdicts::granted_err), unfolding(crate::specs::Test::test_of))]
pub fn test(x: Table) -> Tested
    ensures { result ≡ test_of x }
{
    match accepted(x) {
        Ok(tested) => tested,
        Err(why) => Tested {
            verdict: Err(why),
            k: 0,
            each: [0; 16],
        },
    }
}
