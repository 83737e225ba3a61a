// Lanes, each read as one test and put where it belongs.
#![tactic(auto)]

ghost use Rattle.std.specs.Prelude.{◌≡◌, ◌+◌, ◌*◌, ◌^◌, ◌≤◌, ◌<◌, length, take, drop, get_or};
ghost use Rattle.buffers.specs.Text.{byte};
ghost use Rattle.buffers.specs.Memory.{put};
ghost use Rattle.spelling.specs.Hex.{digit_count, digit_bound, digit_of, digits_below, number};
ghost use Rattle.digits.specs.Program.{lane_from, lane_after, lanes_from};

use choosing::choose;
use spelling::Digits;
use values::Scalar;

// A number that no lane is.
const NO_LANE: u64 = 0x1_0000_0000;

// The digit that the byte at i spells, 16 where it spells none.
fn digit_at(digits: &Digits, t: &[u8], i: usize) -> u64
    requires { (i < length t.now) }
    ensures { (result ≡ digit_of (get_or t.now i 0)) × (result ≤ 16) }
{
    u64::from(digits.digit(t[i]))
}

// Whether four bytes from i on spell digits, all tested as one.
pub fn four_digits(digits: &Digits, t: &[u8], i: usize) -> bool
    requires { (i + 4 ≤ length t.now) }
    ensures { result ≡ digits_below 16 (take 4 (drop i t.now)) }
{
    (digit_at(digits, t, i) < 16)
        & (digit_at(digits, t, i + 1) < 16)
        & (digit_at(digits, t, i + 2) < 16)
        & (digit_at(digits, t, i + 3) < 16)
}

// The number that four digits from i on spell.
fn four_value(digits: &Digits, t: &[u8], i: usize) -> u64
    requires { (i + 4 ≤ length t.now) }
    ensures { (result ≡ number 0 (take 4 (drop i t.now))) × (result < 2 ^ 17) }
{
    digit_at(digits, t, i) * 4096
        + digit_at(digits, t, i + 1) * 256
        + digit_at(digits, t, i + 2) * 16
        + digit_at(digits, t, i + 3)
}

// Lanes of eight digits, of four and of one.
fn eight_from(digits: &Digits, t: &[u8], i: usize) -> u64
    requires { (i + 8 ≤ length t.now) }
    ensures { result ≡ lane_from 16 8 t.now i }
{
    let right = four_digits(digits, t, i) & four_digits(digits, t, i + 4);
    choose(
        right,
        four_value(digits, t, i) * 65536 + four_value(digits, t, i + 4),
        NO_LANE,
    )
}

fn four_from(digits: &Digits, t: &[u8], i: usize) -> u64
    requires { (i + 4 ≤ length t.now) }
    ensures { result ≡ lane_from 16 4 t.now i }
{
    choose(four_digits(digits, t, i), four_value(digits, t, i), NO_LANE)
}

fn one_from(digits: &Digits, t: &[u8], i: usize) -> u64
    requires { (i + 1 ≤ length t.now) }
    ensures { result ≡ lane_from 2 1 t.now i }
{
    let d = digit_at(digits, t, i);
    choose(d < 2, d, NO_LANE)
}

// The lane that is spelled from i on, 2^32 where none is.
fn lane_from(digits: &Digits, t: &[u8], i: usize, s: Scalar) -> u64
    requires { (i + digit_count s ≤ length t.now) }
    ensures { result ≡ lane_from (digit_bound s) (digit_count s) t.now i }
{
    match s {
        Scalar::Boolean => one_from(digits, t, i),
        Scalar::I32 | Scalar::U32 | Scalar::F32 => eight_from(digits, t, i),
        Scalar::F16 => four_from(digits, t, i),
    }
}

// The lane that is spelled behind the byte `before` at i, 2^32 where none is.
fn lane_after(before: u8, digits: &Digits, t: &[u8], i: usize, s: Scalar) -> u64
    requires { (i + (digit_count s + 1) ≤ length t.now) }
    ensures { result ≡ lane_after (digit_bound s) (digit_count s) before t.now i }
{
    if t[i] == before {
        lane_from(digits, t, i + 1, s)
    } else {
        NO_LANE
    }
}

// The n lanes that are spelled from i on, put from `at` on up to the first that is none; answers how many.
pub fn lanes_into(
    w: &mut [u64],
    at: usize,
    digits: &Digits,
    t: &[u8],
    i: usize,
    n: usize,
    s: Scalar,
) -> usize
    requires { (at + n ≤ length w.old) × (i + n * (digit_count s + 1) ≤ length t.now) }
    ensures { (result ≡ length (lanes_from (digit_bound s) (digit_count s) (byte ":") n t.now i))
        × (w.new ≡ put w.old at (lanes_from (digit_bound s) (digit_count s) (byte ":") n t.now i)) }
{
    let step = spelling::digit_count(s) + 1;
    let mut next = i;
    let mut before = b':';
    for k in 0..n {
        let x = lane_after(before, digits, t, next, s);
        if x >= NO_LANE {
            return k;
        }
        w[at + k] = x;
        before = b',';
        next += step;
    }
    n
}
