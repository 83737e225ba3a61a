// Lanes written as digits.
#![tactic(auto)]

ghost use Rattle.std.specs.Prelude.{◌≡◌, ◌∷◌, ◌+◌, ◌≤◌, length, take};
ghost use Rattle.buffers.specs.Text.{byte};
ghost use Rattle.buffers.specs.Memory.{put};
ghost use Rattle.spelling.specs.Hex.{HexTable, hex_bytes};
ghost use Rattle.spelling.specs.Write.{lanes_text};

// The bytes that spell the digits.
fn hex_table() -> [u8; 16]
    ensures { HexTable result }
{
    *b"0123456789ABCDEF"
}

// The low n digits of v, written from `at` on.
fn put_hex(out: &mut [u8], at: usize, n: usize, v: u64)
    requires { (at + n ≤ length out.old) × (n ≤ 16) }
    ensures { out.new ≡ put out.old at (hex_bytes n v) }
{
    let hex = hex_table();
    let mut rest = v;
    let mut i = n;
    while i > 0 {
        i -= 1;
        out[at + i] = hex[(rest % 16) as usize];
        rest = rest / 16;
    }
}

// A byte and a lane of w digits; answers the next place.
fn put_lane(out: &mut [u8], at: usize, b: u8, w: usize, v: u64) -> usize
    requires { (at + (w + 1) ≤ length out.old) × (w ≤ 16) }
    ensures { (result ≡ at + (w + 1)) × (out.new ≡ put out.old at (b ∷ hex_bytes w v)) }
{
    out[at] = b;
    put_hex(out, at + 1, w, v);
    at + (w + 1)
}

// The first n lanes, a colon before the first and a comma before each other; answers the next place.
pub fn put_lanes(out: &mut [u8], at: usize, n: usize, w: usize, lanes: &[u64]) -> usize
    requires { (at + length (lanes_text (byte ":") w (take n lanes.now)) ≤ length out.old) × (n ≤ length lanes.now) × (w ≤ 16) }
    ensures { (result ≡ at + length (lanes_text (byte ":") w (take n lanes.now))) × (out.new ≡ put out.old at (lanes_text (byte ":") w (take n lanes.now))) }
{
    let mut next = at;
    let mut before = b':';
    for k in 0..n {
        next = put_lane(out, next, before, w, lanes[k]);
        before = b',';
    }
    next
}
