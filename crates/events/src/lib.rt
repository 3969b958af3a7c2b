// The input of the listing program: the table's record, and the events behind it, each handed on as a part.

#![tactic(auto)]

ghost use Rattle.std.specs.Prelude.{◌≡◌};
ghost use Rattle.events.specs.Events.{record_length, record_of, events_of, event_at, width_of};

// Request has the name and the size.
#[derive(Clone, Copy, Debug, PartialEq, Eq)]
pub enum Event {
    End,
    Slot,
    Lost,
    Request(u16, u16),
    Bad,
}

// The offset of the first event, too.
pub fn record_length(s: &[u8]) -> usize
    ensures { result ≡ record_length s.now }
{
    match s {
        [_, high, low, ..] => {
            let length = u16::from_be_bytes([*high, *low]);
            s.len().min(3 + usize::from(length))
        }
        _ => s.len(),
    }
}

pub fn record(s: &[u8]) -> &[u8]
    ensures { result.now ≡ record_of s.now }
{
    &s[..record_length(s)]
}

pub fn events(s: &[u8]) -> &[u8]
    ensures { result.now ≡ events_of s.now }
{
    &s[record_length(s)..]
}

#[tactic(auto, unfolding(crate::specs::Events::event_at))]
pub fn event_at(s: &[u8], p: usize) -> Event
    ensures { result ≡ event_at s.now p }
{
    match s.get(p..).unwrap_or(&[]) {
        [] => Event::End,
        [0, ..] => Event::Slot,
        [1, ..] => Event::Lost,
        [2, a, b, c, d, ..] => {
            let name = u16::from_be_bytes([*a, *b]);
            let size = u16::from_be_bytes([*c, *d]);
            Event::Request(name, size)
        }
        _ => Event::Bad,
    }
}

// What the next event's place is further on.
pub fn width(e: Event) -> usize
    ensures { result ≡ width_of e }
{
    match e {
        Event::Slot | Event::Lost => 1,
        Event::Request(_, _) => 5,
        Event::End | Event::Bad => 0,
    }
}
