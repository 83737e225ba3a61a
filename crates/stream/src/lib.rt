// Lines of a buffer, answered one after another in the reading that the caller chooses, and what of the buffer is kept for later.
#![tactic(auto)]

ghost use Rattle.std.specs.Prelude.{◌≡◌, [], cond, ◌+◌, ◌-◌, ◌/◌, ◌≤◌, length};
ghost use Rattle.buffers.specs.Memory.{put};
ghost use Rattle.cutting.specs.Cutting.{held_of};
ghost use Rattle.stream.specs.Stream.{line_room, lines_in, piece_text, piece_of, part_text, part_of, start_of, step_of, buffer_of, text_of, space, step_lines};
ghost use Rattle.stream.specs.Printed.{answer_line};
ghost use Rattle.lines.specs.Line.{written_in, line_answer};

use answers::LineAnswer;
use engines::Engine;
use readings::Reading;

// No answer has more than 311 bytes; its newline follows.
const LINE_ROOM: usize = 312;

// What `step` is lent, for the input and for the answers: it holds more than the longest line and the longest answer.
pub const SPACE: usize = 65536;

pub type Space = [u8; SPACE];

// Part of the input that is done with: `size` bytes of it, `used` bytes of answers, and whether the next byte belongs to a line
// that is answered already.
#[derive(Clone, Copy)]
pub struct Part {
    pub size: usize,
    pub used: usize,
    pub skip: bool,
}

// What stands in the input buffer and what comes next: the bytes from `at` up to `have` are read and not yet answered; `skip`: they start
// amid a line that is answered already; `last`: no byte comes after them. `used` bytes of answers are to be written first; then more is to
// be read behind `have` (`reads`), or all is done (`done`), or neither.
#[derive(Clone, Copy)]
pub struct Held {
    pub at: usize,
    pub have: usize,
    pub used: usize,
    pub skip: bool,
    pub last: bool,
    pub reads: bool,
    pub done: bool,
}

// A line's answer at a place, where there is room for any.
fn line_at(reading: Reading, line: &[u8], out: &mut [u8], at: usize) -> LineAnswer
    requires { at ≤ length out.old }
    ensures { (result ≡ line_answer reading (length out.old - at) line.now)
        × (out.new ≡ put out.old at (written_in reading (length out.old - at) line.now)) }
{
    lines::fold_line_in(reading, Engine::Arithmetic, line, &mut out[at..])
}

// A line's answer and its newline at a place; answers the next place.
fn put_line(reading: Reading, line: &[u8], out: &mut [u8], at: usize) -> usize
    requires { at + line_room ≤ length out.old }
    ensures { (result ≡ at + length (answer_line reading line.now)) × (out.new ≡ put out.old at (answer_line reading line.now)) }
{
    let a = line_at(reading, line, out, at);
    let e = printing::put_refused(out, at + a.len, a.refusal, a.place);
    printing::put_byte(out, e, 10)
}

// A line's answer and its newline at a place where they are `due`, and nothing where not; answers the next place.
fn put_due(reading: Reading, due: bool, line: &[u8], out: &mut [u8], at: usize) -> usize
    requires { at + line_room ≤ length out.old }
    ensures { (result ≡ at + length (cond due (answer_line reading line.now) []))
        × (out.new ≡ put out.old at (cond due (answer_line reading line.now) [])) }
{
    if due {
        put_line(reading, line, out, at)
    } else {
        at
    }
}

// The first line of s, where it is to be answered now.
fn fold_piece(reading: Reading, s: &[u8], skip: bool, last: bool, out: &mut [u8], at: usize) -> Part
    requires { at + line_room ≤ length out.old }
    ensures { (result ≡ piece_of reading at skip last s.now)
        × (out.new ≡ put out.old at (piece_text reading skip last s.now)) }
{
    let p = cutting::first_line(s, skip, last);
    let end = p.end;
    let used = put_due(reading, p.due, &s[0..end], out, at);
    Part {
        size: p.size,
        used: used,
        skip: p.skip,
    }
}

// The lines of s, as many as have room for the longest answer each. `skip`: s starts amid a line that is answered already.
// `last`: no byte comes after s.
fn fold_part(reading: Reading, s: &[u8], skip: bool, last: bool, out: &mut [u8]) -> Part
    ensures { (result ≡ part_of reading (lines_in out.old) skip last s.now)
        × (out.new ≡ put out.old 0 (part_text reading (lines_in out.old) skip last s.now))
        × (result.size ≤ length s.now) × (result.used ≤ length out.old) }
{
    let mut at = 0;
    let mut used = 0;
    let mut amid = skip;
    let mut left = out.len() / LINE_ROOM;
    while left > 0 {
        let p = fold_piece(reading, &s[at..], amid, last, out, used);
        at += p.size;
        used = p.used;
        amid = p.skip;
        left = cutting::lines_left(left, p.size);
    }
    Part {
        size: at,
        used: used,
        skip: amid,
    }
}

// The lines of what the buffer holds.
fn fold_held(
    reading: Reading,
    buf: &[u8],
    at: usize,
    have: usize,
    skip: bool,
    last: bool,
    out: &mut [u8],
) -> Part
    ensures { (result ≡ part_of reading (lines_in out.old) skip last (held_of buf.now at have))
        × (out.new ≡ put out.old 0 (part_text reading (lines_in out.old) skip last (held_of buf.now at have)))
        × (result.size ≤ length (held_of buf.now at have)) × (result.used ≤ length out.old) }
{
    let end = have.min(buf.len());
    let start = at.min(end);
    fold_part(reading, &buf[start..end], skip, last, out)
}

// Before anything is read.
pub fn start() -> Held
    ensures { result ≡ start_of }
{
    Held {
        at: 0,
        have: 0,
        used: 0,
        skip: false,
        last: false,
        reads: false,
        done: false,
    }
}

// Answers lines of what is held. Where there is none to answer, what is held goes to the start of the buffer, so that there is room
// to read more.
pub fn step(reading: Reading, buf: &mut Space, out: &mut Space, h: Held) -> Held
    ensures { (result ≡ step_of reading step_lines buf.old h) × (buf.new ≡ buffer_of reading step_lines buf.old h)
        × (out.new ≡ put out.old 0 (text_of reading step_lines buf.old h))
        × (result.at ≤ result.have) × (result.have ≤ space) × (result.used ≤ space) }
{
    let at = h.at;
    let have = h.have;
    let p = fold_held(reading, buf, at, have, h.skip, h.last, out);
    if p.size == 0 {
        let n = cutting::carry(buf, at, have);
        return Held {
            at: 0,
            have: n,
            used: p.used,
            skip: p.skip,
            last: h.last,
            reads: !h.last,
            done: h.last,
        };
    }
    let end = have.min(SPACE);
    Held {
        at: at + p.size,
        have: end,
        used: p.used,
        skip: p.skip,
        last: h.last,
        reads: false,
        done: false,
    }
}
