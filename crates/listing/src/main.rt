// The listing program: bytes in, lines out. What is printed is decided in `report`; here bytes are only moved.

#![tactic(auto)]

ghost use Rattle.std.specs.Prelude.{◌+◌, ◌≤◌, IfOk, length};

use engine::State;
use std::io;
use std::io::Read;
use std::ops::ControlFlow;
use text::Line;

// One byte more than is allowed, so that a longer input shows.
fn main(rt: HostRuntime) -> io::Result<()> {
    let mut input = [0u8; 65537];
    let n = read_full(&mut rt.stdin(), &mut input)?;
    list(&rt, &input[..n])
}

// Reads until the buffer is full or the input ends; `read_to_end` would want a heap. Gives how many bytes were put at its start.
fn read_full(from: &mut impl Read, buf: &mut [u8]) -> io::Result<usize>
    ensures { IfOk result (λ n. n ≤ length buf.new) }
{
    let mut done = 0;
    while done < buf.len() {
        let n = from.read(&mut buf[done..])?;
        if n == 0 {
            break;
        }
        done += n;
    }
    Ok(done)
}

// Lines that wait to be sent: the first `used` of the bytes.
#[derive(Drop)]
struct Pending {
    bytes: [u8; 65536],
    used: usize,
    ghost within: { used ≤ 65536 },
}

impl Pending {
    fn new() -> Pending {
        Pending {
            bytes: [0; 65536],
            used: 0,
        }
    }

    // Room for a whole line is made by sending what is there.
    #[tactic(auto, unfolding(text::specs::Text::behind))]
    fn put(&mut self, rt: &impl Print, line: Line) -> io::Result<()> {
        if 65408 <= self.used {
            self.send(rt)?;
        }
        self.used = text::append(&mut self.bytes, self.used, line);
        Ok(())
    }

    fn send(&mut self, rt: &impl Print) -> io::Result<()> {
        rt.write_all(&self.bytes[..self.used])?;
        self.used = 0;
        Ok(())
    }
}

// The record says how the run opens; the events are handed on as the part behind it.
#[tactic(auto, using(report::proofs::Run::parts_short))]
fn list(rt: &impl Print, s: &[u8]) -> io::Result<()> {
    let mut out = Pending::new();
    match report::open(s) {
        Ok(state) => run(
            rt,
            events::events(s),
            events::record_length(s),
            state,
            &mut out,
        )?,
        Err(unopened) => out.put(rt, unopened.line)?,
    }
    out.send(rt)
}

// `head` bytes of the input stand before the events.
#[tactic(auto, using(events::proofs::Run::event_within))]
fn run(rt: &impl Print, s: &[u8], head: usize, start: State, out: &mut Pending) -> io::Result<()>
    requires { head + length s.now ≤ 65536 }
{
    let mut state = start;
    let mut p = 0;
    loop {
        let e = events::event_at(s, p);
        let h = report::hear(state, e, head + p);
        out.put(rt, h.line)?;
        match h.next {
            ControlFlow::Continue(next) => state = next,
            ControlFlow::Break(last) => return out.put(rt, report::total(last)),
        }
        p += events::width(e);
    }
}
