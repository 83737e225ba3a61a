// Lanes of the norm formats as the text packs them: from an f32's bit pattern by integers alone, with nothing rounded before the end.
#![tactic(auto)]

ghost use Rattle.std.specs.Prelude.{◌≡◌, cond, ◌+◌, ◌-◌, ◌*◌, ◌%◌, ◌^◌, ◌≤◌, ◌<◌};
ghost use Rattle.exact.specs.Exact.{floor_half, exact_code};

use norm::Format;

// half's `power` with 64 bits. One function for both would need a trait of shifts with its laws, for two bodies of one operation.
fn power(n: u32) -> u64
    requires { n ≤ 42 }
    ensures { result ≡ 2 ^ n }
{
    1u64 << n
}

// the digits of a magnitude with the leading one
fn digits(m: u32) -> u64
    ensures { result ≡ 0x80_0000 + m % 0x80_0000 }
{
    (0x80_0000 + m % 0x80_0000) as u64
}

// up by 2 a, or down by it
fn moved(negative: bool, middle: u64, a: u64) -> u64
    requires { (2 * a ≤ middle) × (middle ≤ 0x7fff_ffff_ffff_ffff) }
    ensures { result ≡ cond negative (middle - 2 * a) (middle + 2 * a) }
{
    if negative {
        middle - 2 * a
    } else {
        middle + 2 * a
    }
}

// a / d, or - a / d, added to 0.5 and rounded down, as one of `full` codes. As in the definition `full` is added too, so that nothing is below 0.
fn floor_half(full: u64, negative: bool, a: u64, d: u64) -> u32
    requires { (0 < full) × (full ≤ 65536) × (0 < d) × (d ≤ 0x400_0000_0000) × (a ≤ full * d) }
    ensures { result ≡ floor_half full negative a d }
{
    (moved(negative, (2 * full + 1) * d, a) / (2 * d) % full) as u32
}

// A NaN and an unorm lane below 0 give 0, and so does a size below 2^-19, which no scale brings to a half. From there up to 1 a lane is its digits over 2^k,
// where k is from 23 to 42, so that all is held in 64 bits.
pub fn pack(f: Format, x: u32) -> u32
    ensures { result ≡ exact_code f.signed f.w x }
{
    let m = x % 0x8000_0000;
    let negative = x >= 0x8000_0000;
    if (m > 0x7f80_0000) | (m < 0x3600_0000) | (negative & !f.signed) {
        return 0;
    }
    let c = m.min(0x3f80_0000);
    floor_half(
        power(f.w),
        negative,
        f.scale() as u64 * digits(c),
        power(150 - c / 0x80_0000),
    )
}
