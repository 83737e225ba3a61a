// Bytes compared, found, and written into lent memory.
#![tactic(auto)]

ghost use Rattle.std.specs.Prelude.{◌≡◌, cond, ◌+◌, ◌≤◌, ◌<◌, leb, length, drop};
ghost use Rattle.buffers.specs.Text.{same_bytes, place_of};
ghost use Rattle.buffers.specs.Memory.{put, fits};

use choosing::choose;

// ---- bytes

// Whether two slices hold the same bytes.
#[tactic(auto, using(std::proofs::lemmas::Grind::common_steps, crate::proofs::Lookup::same_pointwise))]
pub fn same(a: &[u8], b: &[u8]) -> bool
    ensures { result ≡ same_bytes a.now b.now }
{
    a == b
}

// Whether none of the four bytes from i on is b, tested as one too.
fn none_of_four(s: &[u8], i: usize, b: u8) -> bool
    requires { i + 4 ≤ length s.now }
    ensures { result ≡ leb 4 (place_of b (drop i s.now)) }
{
    (s[i] != b) & (s[i + 1] != b) & (s[i + 2] != b) & (s[i + 3] != b)
}

fn none_of_eight(s: &[u8], i: usize, b: u8) -> bool
    requires { i + 8 ≤ length s.now }
    ensures { result ≡ leb 8 (place_of b (drop i s.now)) }
{
    none_of_four(s, i, b) & none_of_four(s, i + 4, b)
}

// Where b stands first, of the four bytes from i on, or `rest` where they do not have it, chosen without branches too.
fn first_of_four(s: &[u8], i: usize, b: u8, rest: usize) -> usize
    requires { i + 4 ≤ length s.now }
    ensures { result ≡ cond (leb 4 (place_of b (drop i s.now))) rest (i + place_of b (drop i s.now)) }
{
    let from3 = choose(s[i + 3] == b, i + 3, rest);
    let from2 = choose(s[i + 2] == b, i + 2, from3);
    let from1 = choose(s[i + 1] == b, i + 1, from2);
    choose(s[i] == b, i, from1)
}

// Where b stands first, of eight bytes from i on that have it.
fn first_of_eight(s: &[u8], i: usize, b: u8) -> usize
    requires { (i + 8 ≤ length s.now) × (place_of b (drop i s.now) < 8) }
    ensures { result ≡ i + place_of b (drop i s.now) }
{
    first_of_four(s, i, b, first_of_four(s, i + 4, b, i + 7))
}

// Where the first b stands, or the length. By eights: the library's `position` was tried and is slower from 16 bytes on, memchr's below 16.
pub fn find(s: &[u8], b: u8) -> usize
    ensures { (result ≡ place_of b s.now) × (result ≤ length s.now) }
{
    let mut i = 0;
    while s.len() - i >= 8 {
        if none_of_eight(s, i, b) {
            i += 8;
        } else {
            return first_of_eight(s, i, b);
        }
    }
    while i < s.len() {
        if s[i] == b {
            return i;
        }
        i += 1;
    }
    i
}

// ---- lent memory

// The bytes of s, written from `at` on; answers the next place.
fn copy(out: &mut [u8], at: usize, s: &[u8]) -> usize
    requires { at + length s.now ≤ length out.old }
    ensures { (result ≡ at + length s.now) × (out.new ≡ put out.old at s.now) }
{
    let end = at + s.len();
    out[at..end].copy_from_slice(s);
    end
}

// Whether n bytes from `at` on lie within len bytes.
pub fn room(len: usize, at: usize, n: usize) -> bool
    ensures { result ≡ leb (at + n) len }
{
    n <= len && at <= len - n
}

// The bytes of s, written from `at` on if there is room for them, and nothing if not; answers the next place.
pub fn put_bytes(out: &mut [u8], at: usize, s: &[u8]) -> usize
    ensures { (result ≡ cond (fits out.old at s.now) (at + length s.now) at) × (out.new ≡ cond (fits out.old at s.now) (put out.old at s.now) out.old) }
{
    if room(out.len(), at, s.len()) {
        copy(out, at, s)
    } else {
        at
    }
}
