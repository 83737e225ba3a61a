// Lanes of frexp and ldexp, over 32 bits: f32 and i32 lanes as their bits, f16 lanes in the low 16. By integers alone.
#![tactic(auto)]

ghost use Rattle.std.specs.Prelude.{◌≡◌, ◌+◌, ◌*◌, ◌^◌, ◌<◌, ◌≤◌};
ghost use Rattle.std.specs.Float.Ieee.{up, down};
ghost use Rattle.half.specs.Format.{f32, units, magnitude_of};
ghost use Rattle.half.specs.Program.{format};
ghost use Rattle.values.specs.Program.{four, four2};
ghost use Rattle.exponent.specs.Exponent.{fraction, exponent, fraction_lane, exponent_lane, integer, ldexp_lane};
ghost use Rattle.exponent.specs.Leads.{Leads};

use choosing::choose;
use half::power;
use values::Scalar;

#[derive(Clone, Copy)]
struct Digits {
    first: u32,
    count: u32,
}

// The first p + 1 digits of the size of m, and how many it has. A subnormal's first digit becomes the leading one.
fn leading(p: u32, m: u32) -> Digits
    requires { (p < 31) × (0 < m) × (m < 2 ^ 31) }
    ensures { Leads p m result.first result.count }
{
    let hidden = power(p);
    if m < hidden {
        let l = m.leading_zeros();
        Digits {
            first: m << (l + p - 31),
            count: 32 - l,
        }
    } else {
        Digits {
            first: m % hidden + hidden,
            count: m / hidden + p,
        }
    }
}

// ---- frexp

#[derive(Clone, Copy)]
struct Split {
    fraction: u32,
    exponent: u32,
}

// In a format of e bits for the exponent and p for the digits below the leading one: the digits stay, behind the exponent's field of 0.5.
fn frexp(e: u32, p: u32, x: u32) -> Split
    requires { (3 ≤ e) × (0 < p) × (e + p ≤ 31) }
    ensures { (result.fraction ≡ fraction (format e p) x) × (result.exponent ≡ exponent (format e p) x) }
{
    let hidden = power(p);
    let top = power(e + p);
    let infinity = top - hidden;
    let m = x % top;
    if (m == 0) | (infinity <= m) {
        return Split {
            fraction: choose(infinity < m, infinity + hidden / 2, x),
            exponent: 0,
        };
    }
    let d = leading(p, m);
    let magnitude = top / 2 - 3 * hidden + d.first;
    let lowest = power(e - 1) + p - 2;
    Split {
        fraction: choose(top <= x, top, 0) + magnitude,
        exponent: d.count.wrapping_sub(lowest),
    }
}

fn split_lane(s: Scalar, x: u32) -> Split
    ensures { (result.fraction ≡ fraction_lane s x) × (result.exponent ≡ exponent_lane s x) }
{
    match s {
        Scalar::Boolean | Scalar::I32 | Scalar::U32 => Split {
            fraction: x,
            exponent: 0,
        },
        Scalar::F32 => frexp(8, 23, x),
        Scalar::F16 => frexp(5, 10, x),
    }
}

pub fn fraction_lane(s: Scalar, x: u32) -> u32
    ensures { result ≡ fraction_lane s x }
{
    split_lane(s, x).fraction
}

pub fn exponent_lane(s: Scalar, x: u32) -> u32
    ensures { result ≡ exponent_lane s x }
{
    split_lane(s, x).exponent
}

pub fn fraction(s: Scalar, x: [u32; 4]) -> [u32; 4]
    ensures { result ≡ four (fraction_lane s) x }
{
    x.map(|lane| fraction_lane(s, lane))
}

pub fn exponent(s: Scalar, x: [u32; 4]) -> [u32; 4]
    ensures { result ≡ four (exponent_lane s) x }
{
    x.map(|lane| exponent_lane(s, lane))
}

// ---- ldexp

// 24 digits q times 2^(a - 24) units. From 24 up a - 24 zeros stand behind them, until the exponent's field is full; below, the last 24 - a
// digits are rounded off.
fn placed(q: u32, a: u32) -> u32
    requires { (0x80_0000 ≤ q) × (q < 0x0100_0000) }
    ensures { result ≡ magnitude_of f32 (q * 2 ^ a) (2 ^ 24) }
{
    if a >= 278 {
        0x7f80_0000
    } else if a >= 24 {
        (a - 24) * 0x80_0000 + q
    } else {
        half::nearest_div(q, power(24 - a))
    }
}

// The magnitude m times 2^n. Where n takes all its digits and one place more away, nothing is left to round.
fn scaled(m: u32, n: u32) -> u32
    requires { m < 0x7f80_0000 }
    ensures { result ≡ magnitude_of f32 (units f32 m * up (integer n)) (down (integer n)) }
{
    if m == 0 {
        return 0;
    }
    let d = leading(23, m);
    let count = d.count;
    if n < 0x8000_0000 {
        placed(d.first, count + n)
    } else if count > 0xffff_ffff - n {
        placed(d.first, count - 1 - (0xffff_ffff - n))
    } else {
        0
    }
}

// Not inlined, as limits' step_lane.
#[inline(never)]
pub fn ldexp_lane(x: u32, n: u32) -> u32
    ensures { result ≡ ldexp_lane x n }
{
    let m = x % 0x8000_0000;
    if m > 0x7f80_0000 {
        return 0x7fc0_0000;
    }
    if m == 0x7f80_0000 {
        return x;
    }
    let s = scaled(m, n);
    if x < 0x8000_0000 { s } else { 0x8000_0000 + s }
}

pub fn ldexp(x: [u32; 4], n: [u32; 4]) -> [u32; 4]
    ensures { result ≡ four2 ldexp_lane x n }
{
    std::array::from_fn(|i| ldexp_lane(x[i], n[i]))
}
