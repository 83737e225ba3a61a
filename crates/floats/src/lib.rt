// From an f32's bit pattern to the float that it stands for and back.
#![tactic(auto)]

ghost use Rattle.std.specs.Prelude.{◌≡◌};
ghost use Rattle.std.specs.Float.{binary32};
ghost use Rattle.std.specs.Float.Ieee.{of_bits, to_bits};

// A NaN's pattern is, but for the sign, above the infinity's. All of them give the one NaN.
pub fn f32_of(n: u32) -> f32
    ensures { result ≡ of_bits binary32 n }
{
    if n % 0x8000_0000 > 0x7f80_0000 {
        f32::NAN
    } else {
        f32::from_bits(n)
    }
}

// A NaN's pattern is 7FC00000.
pub fn bits_of(x: f32) -> u32
    ensures { result ≡ to_bits binary32 x }
{
    if x.is_nan() { 0x7fc0_0000 } else { x.to_bits() }
}
