// What the listing prints: how a run opens, what is said of each event, and the total.

#![tactic(auto)]

ghost use Rattle.std.specs.Prelude.{◌≡◌};
ghost use Rattle.std.specs.declared.ops.ControlFlow.TheVariants.{Continue};
ghost use Rattle.text.specs.Text.{line_of};
ghost use Rattle.lines.specs.Lines.{refused_line};
ghost use Rattle.table.specs.Verdicts.{number_of, row_named, taken};
ghost use Rattle.engine.specs.Slot.{slot_of};
ghost use Rattle.engine.specs.Calls.{request_of};
ghost use Rattle.report.specs.Listing.{opened_of, answer_text, request_text, heard_of, total_text};

use engine::State;
use events::Event;
use std::ops::ControlFlow;
use table::Verdict;
use text::Line;

// Of a run that does not begin: what is printed instead, and the state that the start gives, all zeros where the record or the table is refused.
#[derive(Clone, Copy)]
pub struct Unopened {
    pub line: Line,
    pub state: State,
}

// `next` holds the state after the event, and says whether the run goes on.
#[derive(Clone, Copy)]
pub struct Heard {
    pub line: Line,
    pub next: ControlFlow<State, State>,
}

fn refused(v: Verdict) -> Line
    ensures { result ≡ line_of (refused_line (number_of v) (row_named v)) }
{
    lines::refused_line(table::number_of(v), table::row_named(v))
}

// Reads the record and starts the run, or says in a line why not. The start comes first: its state is given of a long input too.
#[tactic(auto, unfolding(crate::specs::Listing::opened_of, crate::specs::Listing::opening_text, crate::specs::Listing::goes_ahead))]
pub fn open(s: &[u8]) -> Result<State, Unopened>
    ensures { result ≡ opened_of s.now }
{
    let r = record::read(events::record(s));
    let b = engine::start(r.table);
    let state = b.state;
    if 65536 < s.len() {
        return Err(Unopened {
            line: lines::long_line(),
            state,
        });
    }
    let Ok(()) = r.verdict else {
        return Err(Unopened {
            line: refused(r.verdict),
            state,
        });
    };
    let Ok(()) = b.verdict else {
        return Err(Unopened {
            line: refused(b.verdict),
            state,
        });
    };
    Ok(state)
}

// The line of a call that is taken, or the refusal without a row.
fn unless_refused(v: Verdict, line: Line) -> Line
    ensures { result ≡ taken v line (line_of (refused_line (number_of v) 0)) }
{
    match v {
        Ok(()) => line,
        Err(why) => lines::refused_line(why.number(), 0),
    }
}

fn slot_heard(s: State, lost: bool) -> Heard
    ensures { result ≡ record { line = line_of (answer_text s.next (slot_of s lost).answer); next = Continue (slot_of s lost).state } }
{
    let r = engine::slot(s, lost);
    let a = r.answer;
    Heard {
        line: unless_refused(a.verdict, lines::slot_line(s.next, a.used, a.word)),
        next: ControlFlow::Continue(r.state),
    }
}

// A line of no bytes, and no Option, where there is nothing to say: `listing` puts the text of each event behind the others.
fn request_heard(s: State, name: u16, size: u16) -> Heard
    ensures { result ≡ record { line = line_of (request_text (request_of s name size).verdict); next = Continue (request_of s name size).state } }
{
    let r = engine::request(s, name, size);
    Heard {
        line: unless_refused(r.verdict, text::blank()),
        next: ControlFlow::Continue(r.state),
    }
}

// What is printed of an event at place p, and the state after it.
#[tactic(auto, unfolding(crate::specs::Listing::heard_of, crate::specs::Listing::event_text, crate::specs::Listing::event_state))]
pub fn hear(s: State, e: Event, p: usize) -> Heard
    ensures { result ≡ heard_of s e p }
{
    match e {
        Event::End => Heard {
            line: text::blank(),
            next: ControlFlow::Break(s),
        },
        Event::Slot => slot_heard(s, false),
        Event::Lost => slot_heard(s, true),
        Event::Request(name, size) => request_heard(s, name, size),
        Event::Bad => Heard {
            line: lines::bad_line(p),
            next: ControlFlow::Break(s),
        },
    }
}

#[tactic(auto, unfolding(crate::specs::Listing::total_text))]
pub fn total(s: State) -> Line
    ensures { result ≡ line_of (total_text s) }
{
    let late = engine::late_total(s).total;
    lines::total_line(s.hard, s.given, s.empty, s.lost, late)
}
