// Lanes of the numeric builtins, over 32 bits: i32, u32 and f32 lanes as their bits, f16 lanes in the low 16.
#![tactic(auto)]

ghost use Rattle.std.specs.Prelude.{◌≡◌, cond, ◌+◌, ◌%◌, ◌^◌, ◌<◌, leb, ltb, eqb};
ghost use Rattle.values.specs.Program.{four};
ghost use Rattle.numeric.specs.Numeric.{abs_lane, sign_float, sign_lane, leading_lane, ones_lane, trailing_lane};

use choosing::choose;
use values::Scalar;

// ---- abs

fn abs_i32(x: u32) -> u32
    ensures { result ≡ abs_lane Scalar.I32 x }
{
    if x < 0x8000_0000 {
        x
    } else {
        0xffff_ffff - x + 1
    }
}

pub fn abs_lane(s: Scalar, x: u32) -> u32
    ensures { result ≡ abs_lane s x }
{
    match s {
        Scalar::Boolean | Scalar::U32 => x,
        Scalar::I32 => abs_i32(x),
        Scalar::F32 => x % 0x8000_0000,
        Scalar::F16 => x % 0x8000,
    }
}

pub fn abs(s: Scalar, x: [u32; 4]) -> [u32; 4]
    ensures { result ≡ four (abs_lane s) x }
{
    x.map(|lane| abs_lane(s, lane))
}

// ---- sign

fn sign_i32(x: u32) -> u32
    ensures { result ≡ sign_lane Scalar.I32 x }
{
    choose(x < 0x8000_0000, sign_u32(x), 0xffff_ffff)
}

fn sign_u32(x: u32) -> u32
    ensures { result ≡ sign_lane Scalar.U32 x }
{
    x.min(1)
}

// Floats go by the weight of the sign and the patterns of infinity, NaN and 1. A zero is returned as it came.
fn sign_float(x: u32, top: u32, infinity: u32, nan: u32, one: u32) -> u32
    requires { (0 < top) × (top + one < 2 ^ 32) }
    ensures { result ≡ cond (ltb infinity (x % top)) nan (cond (eqb (x % top) 0) x (cond (leb top x) top 0 + one)) }
{
    let m = x % top;
    choose(
        infinity < m,
        nan,
        choose(m == 0, x, choose(top <= x, top + one, one)),
    )
}

pub fn sign_lane(s: Scalar, x: u32) -> u32
    ensures { result ≡ sign_lane s x }
{
    match s {
        Scalar::Boolean => x,
        Scalar::I32 => sign_i32(x),
        Scalar::U32 => sign_u32(x),
        Scalar::F32 => sign_float(x, 0x8000_0000, 0x7f80_0000, 0x7fc0_0000, 0x3f80_0000),
        Scalar::F16 => sign_float(x, 0x8000, 0x7c00, 0x7e00, 0x3c00),
    }
}

pub fn sign(s: Scalar, x: [u32; 4]) -> [u32; 4]
    ensures { result ≡ four (sign_lane s) x }
{
    x.map(|lane| sign_lane(s, lane))
}

// ---- counts

pub fn leading_lane(x: u32) -> u32
    ensures { result ≡ leading_lane x }
{
    x.leading_zeros()
}

pub fn ones_lane(x: u32) -> u32
    ensures { result ≡ ones_lane x }
{
    x.count_ones()
}

pub fn trailing_lane(x: u32) -> u32
    ensures { result ≡ trailing_lane x }
{
    x.trailing_zeros()
}

pub fn count_leading_zeros(x: [u32; 4]) -> [u32; 4]
    ensures { result ≡ four leading_lane x }
{
    x.map(leading_lane)
}

pub fn count_one_bits(x: [u32; 4]) -> [u32; 4]
    ensures { result ≡ four ones_lane x }
{
    x.map(ones_lane)
}

pub fn count_trailing_zeros(x: [u32; 4]) -> [u32; 4]
    ensures { result ≡ four trailing_lane x }
{
    x.map(trailing_lane)
}
