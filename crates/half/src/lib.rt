// From an f32's bit pattern to a half's and back, by integers alone.
#![tactic(auto)]

ghost use Rattle.std.specs.Prelude.{◌≡◌, cond, ◌+◌, ◌-◌, ◌/◌, ◌%◌, ◌^◌, ◌≤◌, ◌<◌, ltb};
ghost use Rattle.std.specs.Float.Ieee.Nearest.{closest};
ghost use Rattle.half.specs.Format.{f16, f32};
ghost use Rattle.half.specs.Convert.{converted_magnitude, half_of, single_of};

use choosing::choose;

pub fn power(n: u32) -> u32
    requires { n < 32 }
    ensures { result ≡ 2 ^ n }
{
    1u32 << n
}

// t / d to the nearest whole number, a tie to the even one: an odd quotient goes up from the tie on, an even one past it.
pub fn nearest_div(t: u32, d: u32) -> u32
    requires { (t < 0x8000_0000) × (0 < d) × (d ≤ 0x0100_0000) }
    ensures { result ≡ closest t d }
{
    let q = t / d;
    if d < t % d * 2 + q % 2 { q + 1 } else { q }
}

// What is rounded to a half: below 2^-14 the digits with the leading one; from there up the magnitude, its exponent's field moved by 112, so that a
// carry goes into the field.
fn digits_of(m: u32) -> u32
    ensures { result ≡ cond (ltb m 0x3880_0000) (m % 0x80_0000 + 0x80_0000) (m - 0x3800_0000) }
{
    if m < 0x3880_0000 {
        m % 0x80_0000 + 0x80_0000
    } else {
        m - 0x3800_0000
    }
}

// How many places of it are rounded off: below 2^-14 as many as leave units of 2^-24, from there up 13.
fn places_off(m: u32) -> u32
    ensures { result ≡ cond (ltb m 0x3880_0000) (126 - m / 0x80_0000) 13 }
{
    if m < 0x3880_0000 {
        126 - m / 0x80_0000
    } else {
        13
    }
}

// Under 2^-25 it is 0, from 2^16 up the infinity.
fn half_magnitude(m: u32) -> u32
    ensures { result ≡ converted_magnitude f32 f16 m }
{
    if (m < 0x3300_0000) | (0x4780_0000 <= m) {
        if m < 0x3300_0000 {
            return 0;
        }
        return 0x7c00;
    }
    nearest_div(digits_of(m), 1u32 << places_off(m))
}

// The sign stands in front of the half's magnitude. Every NaN is 7E00.
pub fn f32_to_f16(n: u32) -> u16
    ensures { result ≡ half_of n }
{
    let m = n % 0x8000_0000;
    if m > 0x7f80_0000 {
        return 0x7e00;
    }
    (n / 0x8000_0000 * 0x8000 + half_magnitude(m)) as u16
}

// A normal half's digits move up by 13 and its exponent's field by 112. The bound of m stands in three contracts: the one function behind them all makes such
// an m once, so that a type for it would be no plainer.
fn normal_magnitude(m: u32) -> u32
    requires { m < 0x8000 }
    ensures { (1024 ≤ m → m < 0x7c00 → result ≡ converted_magnitude f16 f32 m) × (result < 0x8000_0000) }
{
    m * 8192 + 0x3800_0000
}

// A subnormal's first digit becomes the leading one.
fn subnormal_magnitude(m: u32) -> u32
    requires { m < 0x8000 }
    ensures { (0 < m → m < 1024 → result ≡ converted_magnitude f16 f32 m) × (result < 0x8000_0000) }
{
    let l = u32::leading_zeros(m);
    (133 - l) * 0x80_0000 + (m << (l - 8))
}

// Of what is no normal half: zero, a subnormal, the infinity. Each is worked out and one chosen.
fn other_magnitude(m: u32) -> u32
    requires { m < 0x8000 }
    ensures { (m < 1024 → result ≡ converted_magnitude f16 f32 m) × (m ≡ 0x7c00 → result ≡ converted_magnitude f16 f32 m) × (result < 0x8000_0000) }
{
    let small = choose(m == 0, 0, subnormal_magnitude(m));
    choose(m == 0x7c00, 0x7f80_0000, small)
}

// The sign stands in front of the f32's magnitude. Every NaN is 7FC00000. Exact: one test parts the normal halves, and no jump stands behind it.
pub fn f16_to_f32(h: u16) -> u32
    ensures { result ≡ single_of h }
{
    let m = (h % 0x8000) as u32;
    let sign = (h / 0x8000) as u32 * 0x8000_0000;
    if (1024 <= m) & (m < 0x7c00) {
        return sign + normal_magnitude(m);
    }
    choose(m > 0x7c00, 0x7fc0_0000, sign + other_magnitude(m))
}

// The f32 of a half in the low 16 bits. A greater number has the sign and its low 15 bits, as the definition has it.
pub fn single_of(x: u32) -> u32
    ensures { result ≡ single_of x }
{
    f16_to_f32((choose(0x8000 <= x, 0x8000, 0) + x % 0x8000) as u16)
}
