// What of the bytes at hand is a line, and what of a buffer is kept for later.
#![tactic(auto)]

ghost use Rattle.std.specs.Prelude.{◌≡◌, cond, ◌+◌, ◌-◌, ◌<◌, ◌≤◌, min, eqb, length};
ghost use Rattle.buffers.specs.Memory.{put};
ghost use Rattle.cutting.specs.Cutting.{first_line, held_of};

use choosing::choose;

// A longer line is refused.
pub const MOST_BYTES: usize = 400;

// The first line of the bytes at hand: where it ends, whether it is to be answered now, how many bytes are done with, and whether what
// comes next belongs to a line that is answered already.
#[derive(Clone, Copy)]
pub struct FirstLine {
    pub end: usize,
    pub due: bool,
    pub size: usize,
    pub skip: bool,
}

// Past the newline, where there is one.
fn after(ended: bool, e: usize, size: usize) -> usize
    requires { e < 18446744073709551615 }
    ensures { result ≡ cond ended (e + 1) size }
{
    if ended { e + 1 } else { size }
}

// The first line of s.
pub fn first_line(s: &[u8], skip: bool, last: bool) -> FirstLine
    ensures { (result ≡ first_line skip last s.now) × (result.end ≤ length s.now) }
{
    let n = s.len();
    let e = buffers::find(s, b'\n');
    let ended = e < n;
    let over = n > MOST_BYTES;
    let size = choose(skip | over | last, n, 0);
    FirstLine {
        end: e,
        due: !skip & (ended | over | (last & (n > 0))),
        size: after(ended, e, size),
        skip: !ended & (skip | over),
    }
}

// How many lines are left to answer: none where nothing was done.
pub fn lines_left(left: usize, size: usize) -> usize
    requires { 0 < left }
    ensures { (result < left) × (result ≡ cond (eqb size 0) 0 (left - 1)) }
{
    if size == 0 { 0 } else { left - 1 }
}

// What stands from `at` up to `have` goes to the start; answers how much that is.
pub fn carry(buf: &mut [u8], at: usize, have: usize) -> usize
    ensures { (result ≡ length (held_of buf.old at have)) × (buf.new ≡ put buf.old 0 (held_of buf.old at have))
        × (result ≤ length buf.old) }
{
    let end = have.min(buf.len());
    if at > end {
        return 0;
    }
    buf.copy_within(at..end, 0);
    end - at
}

pub fn least(a: usize, b: usize) -> usize
    ensures { result ≡ min a b }
{
    a.min(b)
}
