// min, max, clamp, saturate and step. A lane that goes by numbers is chosen by a test; an f32 lane is compared as the float that it stands for.
#![tactic(auto)]

ghost use Rattle.std.specs.Prelude.{◌≡◌, from_bits};
ghost use Rattle.std.specs.Float.{binary32};
ghost use Rattle.std.specs.Float.Ieee.{le};
ghost use Rattle.values.specs.Program.{four, four2, four3};
ghost use Rattle.limits.specs.Limits.{above, max_lane, min_lane, clamp_lane, saturate_lane, step_lane};
ghost use Rattle.limits.specs.Program.{below_of, other_float, other_of};

use choosing::choose;
use half::single_of;
use values::Scalar;

// How far an i32 lies above the least.
fn above_least(x: u32) -> u32
    ensures { result ≡ above x }
{
    x.wrapping_add(0x8000_0000)
}

// ---- max and min

fn float_below(x: u32, y: u32) -> bool
    ensures { result ≡ below_of Scalar.F32 x y }
{
    floats::f32_of(x) < floats::f32_of(y)
}

// Whether the lane x is below y.
fn below(s: Scalar, x: u32, y: u32) -> bool
    ensures { result ≡ below_of s x y }
{
    match s {
        Scalar::I32 => above_least(x) < above_least(y),
        Scalar::U32 => x < y,
        Scalar::F32 => float_below(x, y),
        Scalar::Boolean | Scalar::F16 => false,
    }
}

fn other_float(second: bool, x: f32, y: f32) -> f32
    ensures { result ≡ other_float second x y }
{
    if x.is_nan() | second { y } else { x }
}

fn other_f32(second: bool, x: u32, y: u32) -> u32
    ensures { result ≡ other_of Scalar.F32 second x y }
{
    floats::bits_of(other_float(second, floats::f32_of(x), floats::f32_of(y)))
}

// The lane y where `second` says so or x is a NaN, otherwise x.
fn other(s: Scalar, second: bool, x: u32, y: u32) -> u32
    ensures { result ≡ other_of s second x y }
{
    match s {
        Scalar::I32 | Scalar::U32 => choose(second, y, x),
        Scalar::F32 => other_f32(second, x, y),
        Scalar::Boolean | Scalar::F16 => x,
    }
}

pub fn max_lane(s: Scalar, x: u32, y: u32) -> u32
    ensures { result ≡ max_lane s x y }
{
    other(s, below(s, x, y), x, y)
}

pub fn max(s: Scalar, x: [u32; 4], y: [u32; 4]) -> [u32; 4]
    ensures { result ≡ four2 (max_lane s) x y }
{
    std::array::from_fn(|i| max_lane(s, x[i], y[i]))
}

pub fn min_lane(s: Scalar, x: u32, y: u32) -> u32
    ensures { result ≡ min_lane s x y }
{
    other(s, below(s, y, x), x, y)
}

pub fn min(s: Scalar, x: [u32; 4], y: [u32; 4]) -> [u32; 4]
    ensures { result ≡ four2 (min_lane s) x y }
{
    std::array::from_fn(|i| min_lane(s, x[i], y[i]))
}

// ---- clamp, saturate

pub fn clamp_lane(s: Scalar, e: u32, low: u32, high: u32) -> u32
    ensures { result ≡ clamp_lane s e low high }
{
    min_lane(s, max_lane(s, e, low), high)
}

// First the max of all lanes, then the min of all: lane by lane it takes a fifth more instructions.
pub fn clamp(s: Scalar, e: [u32; 4], low: [u32; 4], high: [u32; 4]) -> [u32; 4]
    ensures { result ≡ four3 (clamp_lane s) e low high }
{
    let raised: [u32; 4] = std::array::from_fn(|i| max_lane(s, e[i], low[i]));
    std::array::from_fn(|i| min_lane(s, raised[i], high[i]))
}

pub fn saturate_lane(x: u32) -> u32
    ensures { result ≡ saturate_lane x }
{
    clamp_lane(Scalar::F32, x, 0, 0x3f80_0000)
}

pub fn saturate(x: [u32; 4]) -> [u32; 4]
    ensures { result ≡ four saturate_lane x }
{
    x.map(saturate_lane)
}

// ---- step

fn at_most(x: u32, y: u32) -> bool
    ensures { result ≡ le (from_bits binary32 x) (from_bits binary32 y) }
{
    floats::f32_of(x) <= floats::f32_of(y)
}

// Not inlined: with four copies of it the arms are too large to be worked out within the fold, and every call of words pays for a call.
#[inline(never)]
pub fn step_lane(s: Scalar, edge: u32, x: u32) -> u32
    ensures { result ≡ step_lane s edge x }
{
    match s {
        Scalar::Boolean | Scalar::I32 | Scalar::U32 => x,
        Scalar::F32 => choose(at_most(edge, x), 0x3f80_0000, 0),
        Scalar::F16 => choose(at_most(single_of(edge), single_of(x)), 0x3c00, 0),
    }
}

pub fn step(s: Scalar, edge: [u32; 4], x: [u32; 4]) -> [u32; 4]
    ensures { result ≡ four2 (step_lane s) edge x }
{
    std::array::from_fn(|i| step_lane(s, edge[i], x[i]))
}
