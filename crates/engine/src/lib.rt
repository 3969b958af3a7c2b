// The engine: a scheduler state, and what a start, a request, a slot and a late total do to it.

#![tactic(auto)]

ghost use Rattle.std.specs.Prelude.{◌≡◌};
ghost use Rattle.std.specs.Int.Count.{ones};
ghost use Rattle.table.specs.Verdicts.{number};
ghost use Rattle.uses.specs.Numbers.{use_number, use_who};
ghost use Rattle.engine.specs.Slot.{slot_of};
ghost use Rattle.engine.specs.Said.{verdict_told, cases_of, is_on, slot_said};
ghost use Rattle.engine.specs.Calls.{request_of, late_total_of};
ghost use Rattle.engine.specs.Start.{blank, start_of};

use table::{Refusal, Table, Verdict};
use uses::Use;

// Of each row its table figures, its allowance, the work left, its counter and its late count; the queue in 32 places; four tallies.
// Rows past n and places past count are zero. Numbers only, and arrays of them with their count, so that C and Rust can lend it.
#[repr(C)]
#[derive(Clone, Copy)]
pub struct State {
    pub n: usize,
    pub next: u64,
    pub c: [u16; 16],
    pub t: [u16; 16],
    pub d: [u16; 16],
    pub k: [u16; 16],
    pub left: [u16; 16],
    pub counter: [u16; 16],
    pub late: [u64; 16],
    pub count: usize,
    pub names: [u16; 32],
    pub sizes: [u16; 32],
    pub hard: u64,
    pub given: u64,
    pub empty: u64,
    pub lost: u64,
}

// Bit 0 of the late word for row 1. A refused slot is answered with empty and zeros, as `Demand1` says, so the verdict stands beside them;
// so, too, in the answers below: document 01 gives zeros or the old state with a refusal.
#[derive(Clone, Copy)]
pub struct Answer {
    pub verdict: Verdict,
    pub used: Use,
    pub word: u16,
    pub late: u32,
}

#[derive(Clone, Copy)]
pub struct Started {
    pub verdict: Verdict,
    pub state: State,
}

#[derive(Clone, Copy)]
pub struct Slotted {
    pub state: State,
    pub answer: Answer,
}

// The same in numbers only, for C, to which no enum is lent. used: 0 empty, 1 hard, 2 given, 3 lost. who: the row that got the slot, from 1 on, or the name of
// the request.
#[repr(C)]
#[derive(Clone, Copy)]
pub struct Said {
    pub number: u8,
    pub used: u8,
    pub word: u16,
    pub late: u32,
    pub who: usize,
}

// A state and an answer, as `Slotted`; so, too, `lent::RequestTold`. One generic struct of both would say no more than its two fields do.
#[derive(Clone, Copy)]
pub struct SlotSaid {
    pub state: State,
    pub answer: Said,
}

#[derive(Clone, Copy)]
pub struct Requested {
    pub state: State,
    pub verdict: Verdict,
}

#[derive(Clone, Copy)]
pub struct Summed {
    pub verdict: Verdict,
    pub total: u64,
}

// The answer of a slot that was run.
fn answered(used: Use, word: u16) -> Said
    ensures { result ≡ record { number = 0; used = use_number used; word = word; late = ones word; who = use_who used } }
{
    Said {
        number: 0,
        used: uses::use_number(used),
        word,
        late: marks::late_rows(word),
        who: uses::use_who(used),
    }
}

fn refused(why: Refusal) -> Said
    ensures { result ≡ record { number = number why; used = 0; word = 0; late = 0; who = 0 } }
{
    Said {
        number: why.number(),
        used: 0,
        word: 0,
        late: 0,
        who: 0,
    }
}

// What a slot's number says: it is refused with 10 or 11, if at all. The C face has it as a number.
fn verdict_told(number: u8) -> Verdict
    ensures { result ≡ verdict_told number }
{
    match number {
        0 => Ok(()),
        10 => Err(Refusal::RunOver),
        _ => Err(Refusal::StateIllegal),
    }
}

// `name` is that of the head request before the slot.
fn in_cases(a: Said, name: u16) -> Answer
    ensures { result ≡ cases_of a name }
{
    Answer {
        verdict: verdict_told(a.number),
        used: uses::use_told(a.used, a.who, name),
        word: a.word,
        late: a.late,
    }
}

fn is_on(x: u8) -> bool
    ensures { result ≡ is_on x }
{
    x != 0
}

#[tactic(auto, unfolding(crate::specs::Start::blank))]
fn blank(next: u64, x: Table, k: [u16; 16]) -> State
    ensures { result ≡ blank next x k }
{
    let Table { n, c, t, d } = x;
    State {
        n,
        next,
        c,
        t,
        d,
        k,
        left: [0; 16],
        counter: [0; 16],
        late: [0; 16],
        count: 0,
        names: [0; 32],
        sizes: [0; 32],
        hard: 0,
        given: 0,
        empty: 0,
        lost: 0,
    }
}

#[tactic(auto, unfolding(crate::specs::Start::start_of))]
pub fn start(x: Table) -> Started
    ensures { result ≡ start_of x }
{
    let r = allowance::test(x);
    let Ok(()) = r.verdict else {
        return Started {
            verdict: r.verdict,
            state: blank(0, Table::zeros(0), [0; 16]),
        };
    };
    Started {
        verdict: r.verdict,
        state: blank(1, x, r.each),
    }
}

// Every call on a state goes the same way: each figure into a local of its own, and legality in its three parts; a slot and a request
// have their steps on the locals then, and a new state of the locals at the end. Nothing refers to the state itself, so the compiler
// never copies it whole, and puts back only what a step changes. (`tests/copies` and docs/DESIGN-PASS.md: with one test of legality on `&State`, and
// with steps on the fields of `s`, it copies.)

// The steps of document 01 in their order, for the C face: `lost` is a byte, and the answer is numbers. Whether the slot is lost is asked only after the choice.
pub fn slot_said(s: State, lost: u8) -> SlotSaid
    ensures { result ≡ slot_said s lost }
{
    let State {
        n,
        mut next,
        c,
        t,
        d,
        k,
        mut left,
        mut counter,
        mut late,
        mut count,
        mut names,
        mut sizes,
        mut hard,
        mut given,
        mut empty,
        lost: mut gone,
    } = s;
    let ok = kept::rows_legal(n, &c, &t, &d, &k, &left, &counter)
        & legal::run_legal(n, next, &late, hard, given, empty, gone)
        & queue::is_proper(count, &names, &sizes);
    let answer = match legal::slot_refusal(ok, next) {
        Err(why) => refused(why),
        Ok(()) => {
            let ran = next - 1;
            // 1. Reload
            rows::reload(&mut counter, &left, &k, n);
            // 2. Release
            let marks = marks::mark(&t, &d, n, ran);
            rows::release(&mut left, &c, marks.due);
            // 3. Use
            let choice = uses::choose(&left, &counter, count, n);
            let away = is_on(lost);
            let used = uses::used_for(away, choice, names[0]);
            rows::charge(&mut counter, n, uses::charges(choice, away));
            rows::work(&mut left, uses::row_served(used));
            let served = uses::is_given(used);
            let done = queue::is_last(served, sizes[0]);
            queue::lower(&mut sizes, served);
            queue::shift(&mut sizes, done);
            queue::shift(&mut names, done);
            count = queue::fewer(count, done);
            // 4. Lateness
            let w = marks::late_word(&left, marks.end);
            late::drop_late(&mut left, w);
            late::count_late(&mut late, w);
            // 5. Tally and clock
            hard = late::count_up(hard, uses::is_hard(used));
            given = late::count_up(given, served);
            empty = late::count_up(empty, uses::is_empty(used));
            gone = late::count_up(gone, uses::is_lost(used));
            next = late::count_up(next, true);
            answered(used, w)
        }
    };
    SlotSaid {
        state: State {
            n,
            next,
            c,
            t,
            d,
            k,
            left,
            counter,
            late,
            count,
            names,
            sizes,
            hard,
            given,
            empty,
            lost: gone,
        },
        answer,
    }
}

pub fn slot(s: State, lost: bool) -> Slotted
    ensures { result ≡ slot_of s lost }
{
    let r = slot_said(s, u8::from(lost));
    Slotted {
        state: r.state,
        answer: in_cases(r.answer, s.names[0]),
    }
}

pub fn request(s: State, name: u16, size: u16) -> Requested
    ensures { result ≡ request_of s name size }
{
    let State {
        n,
        next,
        c,
        t,
        d,
        k,
        left,
        counter,
        late,
        mut count,
        mut names,
        mut sizes,
        hard,
        given,
        empty,
        lost: gone,
    } = s;
    let ok = kept::rows_legal(n, &c, &t, &d, &k, &left, &counter)
        & legal::run_legal(n, next, &late, hard, given, empty, gone)
        & queue::is_proper(count, &names, &sizes);
    let verdict = legal::request_refusal(ok, size, count);
    if verdict.is_ok() {
        queue::put(&mut names, count, name);
        queue::put(&mut sizes, count, size);
        count += 1;
    }
    Requested {
        state: State {
            n,
            next,
            c,
            t,
            d,
            k,
            left,
            counter,
            late,
            count,
            names,
            sizes,
            hard,
            given,
            empty,
            lost: gone,
        },
        verdict,
    }
}

pub fn late_total(s: State) -> Summed
    ensures { result ≡ late_total_of s }
{
    let State {
        n,
        next,
        c,
        t,
        d,
        k,
        left,
        counter,
        late,
        count,
        names,
        sizes,
        hard,
        given,
        empty,
        lost: gone,
    } = s;
    let ok = kept::rows_legal(n, &c, &t, &d, &k, &left, &counter)
        & legal::run_legal(n, next, &late, hard, given, empty, gone)
        & queue::is_proper(count, &names, &sizes);
    if !ok {
        return Summed {
            verdict: Err(Refusal::StateIllegal),
            total: 0,
        };
    }
    Summed {
        verdict: Ok(()),
        total: late::late_total(&late),
    }
}
