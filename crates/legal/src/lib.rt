// When the figures of a state are legal, and which calls are refused.

#![tactic(auto)]

ghost use Rattle.std.specs.Prelude.{◌≡◌, cond, Some, None, ◌&&◌, ◌+◌, ◌-◌, eqb, leb};
ghost use Rattle.kept.specs.Kept.{lates_kept};
ghost use Rattle.legal.specs.Legal.{clock_legal, slot_refusal, request_refusal};

use table::{Refusal, Verdict, refuse};

// What is left of the slots run after three tallies, taken off one by one, so that no sum can wrap.
fn untallied(ran: u64, hard: u64, given: u64, empty: u64) -> Option<u64>
    ensures { result ≡ cond (leb (hard + given + empty) ran) (Some (ran - (hard + given + empty))) None }
{
    ran.checked_sub(hard)?
        .checked_sub(given)?
        .checked_sub(empty)
}

fn tallies_legal(ran: u64, hard: u64, given: u64, empty: u64, lost: u64) -> bool
    ensures { result ≡ eqb (hard + given + empty + lost) ran }
{
    untallied(ran, hard, given, empty) == Some(lost)
}

fn clock_legal(next: u64) -> bool
    ensures { result ≡ clock_legal next }
{
    (1 <= next) & (next <= 281474976710657)
}

// What a state has of its run so far. Its rows and its queue are tested where they live (`kept`, `queue`): each test takes the few
// arrays that it looks at, so that the compiler can put it in place.
pub fn run_legal(
    n: usize,
    next: u64,
    late: &[u64; 16],
    hard: u64,
    given: u64,
    empty: u64,
    lost: u64,
) -> bool
    ensures { result ≡ (lates_kept n (next - 1) late.now && eqb (hard + given + empty + lost) (next - 1) && clock_legal next) }
{
    let ran = next.saturating_sub(1);
    kept::lates_kept(n, ran, late)
        & tallies_legal(ran, hard, given, empty, lost)
        & clock_legal(next)
}

// Refusals 11 and 10.
pub fn slot_refusal(ok: bool, next: u64) -> Verdict
    ensures { result ≡ slot_refusal ok next }
{
    refuse(!ok, Refusal::StateIllegal)?;
    refuse(next == 281474976710657, Refusal::RunOver)
}

// Refusals 11, 8 and 9.
pub fn request_refusal(ok: bool, size: u16, count: usize) -> Verdict
    ensures { result ≡ request_refusal ok size count }
{
    refuse(!ok, Refusal::StateIllegal)?;
    refuse(size == 0, Refusal::SizeZero)?;
    refuse(32 <= count, Refusal::QueueFull)
}
