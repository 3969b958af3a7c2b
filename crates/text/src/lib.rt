// A line of bytes: text and numbers behind one another, and a line in a buffer.

#![tactic(auto)]

ghost use Rattle.std.specs.Prelude.{◌≡◌, [], ◌+◌, ◌-◌, min, length};
ghost use Rattle.std.proofs.lemmas.List.Edits.{sets};
ghost use Rattle.text.specs.Text.{decimal, line_of, extended, said, with_text, behind};

use itoa::Buffer;

// Its length stands beside the bytes, for every caller to set: the functions below answer for any, also past 128, so no type with an
// invariant takes its place.
#[derive(Clone, Copy)]
pub struct Line {
    pub bytes: [u8; 128],
    pub length: usize,
}

// A text in a buffer, from place p on; what does not fit is left out. Gives the place behind. The test comes first: past the end there is no
// part to copy into.
#[tactic(auto, using(seq::proofs::Bytes::sets_past, crate::proofs::Laid::part_set))]
pub fn copy(out: &mut [u8], p: usize, t: &[u8]) -> usize
    ensures { (result ≡ p + min (length t.now) (length out.old - p)) × (out.new ≡ sets out.old p t.now) }
{
    if out.len() <= p {
        return p;
    }
    let n = t.len().min(out.len() - p);
    out[p..p + n].copy_from_slice(&t[..n]);
    p + n
}

#[tactic(auto, unfolding(crate::specs::Text::line_of, crate::specs::Text::extended))]
pub fn blank() -> Line
    ensures { result ≡ line_of [] }
{
    Line {
        bytes: [0; 128],
        length: 0,
    }
}

// A text behind a line. The bytes are a local of their own: a line that is changed as a whole is copied by a call of memcpy.
#[tactic(auto, unfolding(crate::specs::Text::extended))]
pub fn put(line: Line, t: &[u8]) -> Line
    ensures { result ≡ extended line t.now }
{
    let Line { mut bytes, length } = line;
    let length = copy(&mut bytes, length, t);
    Line { bytes, length }
}

// In place wherever it is called: a line is copied at each call that is not.
#[tactic(auto, using(crate::proofs::Numbers::decimal_std))]
#[inline(always)]
pub fn put_number(line: Line, x: u64) -> Line
    ensures { result ≡ extended line (decimal x) }
{
    put(line, Buffer::new().format(x).as_bytes())
}

// A line in a buffer, from place p on, if all of it fits. Gives the place behind it.
#[tactic(auto, using(seq::proofs::Places::take_most, crate::proofs::Laid::part_whole))]
pub fn append(out: &mut [u8], p: usize, line: Line) -> usize
    ensures { (result ≡ behind out.old p (said line)) × (out.new ≡ with_text out.old p (said line)) }
{
    let said = &line.bytes[..line.length.min(line.bytes.len())];
    let room = out.len().saturating_sub(p);
    if room < said.len() {
        p
    } else {
        copy(out, p, said)
    }
}
