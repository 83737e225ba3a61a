// Lanes of floor, ceil, trunc, round and fract, over 32 bits: f32 lanes as their bits, f16 lanes in the low 16.
#![tactic(auto)]

ghost use Rattle.std.specs.Prelude.{◌≡◌, ◌+◌, ◌-◌, ◌^◌, ◌≤◌, ◌<◌};
ghost use Rattle.half.specs.Format.{f16, f32};
ghost use Rattle.half.specs.Program.{format};
ghost use Rattle.values.specs.Program.{four};
ghost use Rattle.rounding.specs.Rounding.{whole, fract};
ghost use Rattle.rounding.specs.Lanes.{whole_lane, fract_lane};
ghost use Rattle.rounding.specs.Program.{Sized, outward, is_away, is_round, lift, MadeWhole};

use choosing::choose;
use half::power;
use values::Scalar;

#[derive(Clone, Copy)]
pub enum Way {
    Floor,
    Ceil,
    Trunc,
    Round,
}

// A float format that leaves room in 32 bits: e bits for the exponent and p for the digits below the leading one.
#[derive(Clone, Copy)]
struct Sizes {
    e: u32,
    p: u32,
    ghost sized: { Sized e p },
}

const F32: Sizes = Sizes { e: 8, p: 23 };

const F16: Sizes = Sizes { e: 5, p: 10 };

// ---- floor, ceil, trunc and round, by integers alone
// All is worked out and one result chosen, with no jump, so that the four lanes of a value are worked out at once.

// Which sign has every rest go up, away from 0: 1 the negative numbers', 0 the others', 2 none.
fn outward(way: Way) -> u32
    ensures { result ≡ outward way }
{
    match way {
        Way::Floor => 1,
        Way::Ceil => 0,
        Way::Trunc | Way::Round => 2,
    }
}

// Whether every rest goes up. Numbers of 32 bits are compared, as wide as the lanes.
fn is_away(way: Way, negative: bool) -> bool
    ensures { result ≡ is_away way negative }
{
    choose(negative, 1, 0) == outward(way)
}

fn is_round(way: Way) -> bool
    ensures { result ≡ is_round way }
{
    matches!(way, Way::Round)
}

// What is added so that just a rest of n + r / c that goes up reaches c.
fn lift(nearest: bool, away: bool, n: u32, c: u32) -> u32
    requires { 0 < c }
    ensures { result ≡ lift nearest away n c }
{
    choose(
        nearest,
        choose(n % 2 == 0, c - 1, c) / 2,
        choose(away, c - 1, 0),
    )
}

// From 1 up `past` digits stand before the point beside the leading one, and where none stands behind it nothing is cut off. Else the rest is, and a carry goes
// into the exponent's field. Odd from even is told by the last digit before the point; where that is the leading one, which is not stored, by the field of 1,
// which is odd.
fn from_one(nearest: bool, away: bool, f: Sizes, m: u32) -> u32
    requires { m < 2 ^ (f.e + f.p) }
    ensures { 2 ^ (f.e + f.p - 1) - 2 ^ f.p ≤ m → MadeWhole nearest away f.e f.p m result }
{
    let hidden = power(f.p);
    let one = power(f.e + f.p - 1) - hidden;
    let past = m.saturating_sub(one) / hidden;
    let point = power(f.p.saturating_sub(past));
    let lifted = m + lift(nearest, away, m / point, point);
    lifted - lifted % point
}

// Below 1 sizes compare as their magnitudes do, and that of 0.5 stands one exponent's field lower.
fn whole_magnitude(nearest: bool, away: bool, f: Sizes, m: u32) -> u32
    requires { m < 2 ^ (f.e + f.p) }
    ensures { MadeWhole nearest away f.e f.p m result }
{
    let hidden = power(f.p);
    let one = power(f.e + f.p - 1) - hidden;
    let c = 2 * (one - hidden);
    let below = choose(c <= m + lift(nearest, away, 0, c), one, 0);
    let from = from_one(nearest, away, f, m);
    choose(m < one, below, from)
}

fn whole_in(way: Way, f: Sizes, x: u32) -> u32
    ensures { result ≡ whole way (format f.e f.p) x }
{
    let hidden = power(f.p);
    let top = power(f.e + f.p);
    let infinity = top - hidden;
    let m = x % top;
    let negative = top <= x;
    let r = choose(negative, top, 0) + whole_magnitude(is_round(way), is_away(way, negative), f, m);
    choose(
        infinity < m,
        infinity + hidden / 2,
        choose(infinity <= m, x, r),
    )
}

// The formats are told apart once for the four lanes.
pub fn whole(way: Way, s: Scalar, x: [u32; 4]) -> [u32; 4]
    ensures { result ≡ four (whole_lane way s) x }
{
    match s {
        Scalar::Boolean | Scalar::I32 | Scalar::U32 => x,
        Scalar::F32 => x.map(|lane| whole_in(way, F32, lane)),
        Scalar::F16 => x.map(|lane| whole_in(way, F16, lane)),
    }
}

// ---- fract

// The subtraction of IEEE 754 rounds e - floor(e) once, gives +0 where nothing is left, and NaN of infinities.
fn fract_f32(x: u32) -> u32
    ensures { result ≡ fract f32 x }
{
    let floor = whole_in(Way::Floor, F32, x);
    floats::bits_of(floats::f32_of(x) - floats::f32_of(floor))
}

// What is left of a half has at most 24 digits behind the point: as an f32 it is exact, and it is rounded once, to the half.
// Not inlined, as limits' step_lane.
#[inline(never)]
fn fract_f16(x: u32) -> u32
    ensures { result ≡ fract f16 x }
{
    half::f32_to_f16(fract_f32(half::single_of(x))) as u32
}

pub fn fract(s: Scalar, x: [u32; 4]) -> [u32; 4]
    ensures { result ≡ four (fract_lane s) x }
{
    match s {
        Scalar::Boolean | Scalar::I32 | Scalar::U32 => x,
        Scalar::F32 => x.map(fract_f32),
        Scalar::F16 => x.map(fract_f16),
    }
}
