// Lanes of the norm formats. The formats differ in two things, as their definitions do: whether codes are signed, and their width w.
#![tactic(auto)]

ghost use Rattle.std.specs.Prelude.{◌≡◌, cond, ◌/◌, ◌^◌, ◌≤◌, ◌<◌, T, pos};
ghost use Rattle.std.specs.Float.{binary32};
ghost use Rattle.std.specs.Float.Ieee.{lt, le, of_int, fits};
ghost use Rattle.half.specs.Format.{f32, magnitude, units};
ghost use Rattle.norm.specs.Norm as Norm;
ghost use Rattle.norm.specs.Norm.{stepped, floor_code, packed_norm, unpacked_norm};
ghost use Rattle.norm.specs.Sizes.{nought, size_down, size_up};

use floats::{bits_of, f32_of};
use half::power;

#[derive(Clone, Copy)]
pub struct Format {
    pub signed: bool,
    pub w: u32,
    pub ghost widths: { (1 ≤ w) × (w ≤ 16) },
}

// ---- sizes

fn whole(n: u32) -> f32
    requires { n ≤ 65536 }
    ensures { result ≡ of_int binary32 (pos n) }
{
    n as f32
}

// The digits before the point of the f32 from 0 up, and below 65536, whose bits these are.
fn whole_part(n: u32) -> u32
    requires { magnitude f32 n < 0x4780_0000 }
    ensures { result ≡ units f32 (magnitude f32 n) / 2 ^ 149 }
{
    let m = n % 0x8000_0000;
    if m < 0x3f80_0000 {
        return 0;
    }
    (m % 0x80_0000 + 0x80_0000) >> (150 - m / 0x80_0000)
}

// v rounded down, at most 65536: from the bits, since a cast of an f32 goes by way of f64. That v fits is asked in three contracts, since a contract takes any
// float: a type round an f32 would say no more, and each step would have to unwrap it.
fn size_down(v: f32) -> u32
    requires { T (le nought v) × T (fits binary32 v) }
    ensures { result ≡ size_down v }
{
    if v < 65536.0 {
        whole_part(bits_of(v))
    } else {
        65536
    }
}

// v rounded up, at most 65536.
fn size_up(v: f32) -> u32
    requires { T (le nought v) × T (fits binary32 v) }
    ensures { result ≡ size_up v }
{
    let t = size_down(v);
    if t < 65536 {
        if whole(t) < v { t + 1 } else { t }
    } else {
        65536
    }
}

// Not `max` of f32, which gives the other of a NaN and a number: a NaN stays.
fn at_least(low: f32, q: f32) -> f32
    ensures { result ≡ cond (lt q low) low q }
{
    if q < low { low } else { q }
}

impl Format {
    pub const SNORM8: Self = Format { signed: true, w: 8 };

    pub const UNORM8: Self = Format {
        signed: false,
        w: 8,
    };

    pub const SNORM16: Self = Format {
        signed: true,
        w: 16,
    };

    pub const UNORM16: Self = Format {
        signed: false,
        w: 16,
    };

    // ---- a format's numbers

    // the code of 1
    pub fn scale(self) -> u32
        ensures { result ≡ Norm.scale self.signed self.w }
    {
        if self.signed {
            power(self.w - 1) - 1
        } else {
            power(self.w) - 1
        }
    }

    fn depth(self) -> u32
        ensures { result ≡ Norm.depth self.signed self.w }
    {
        if self.signed { power(self.w - 1) } else { 0 }
    }

    fn least(self) -> f32
        ensures { result ≡ Norm.least self.signed }
    {
        if self.signed { -1.0 } else { 0.0 }
    }

    // the code of -n
    fn minus(self, n: u32) -> u32
        requires { n ≤ 2 ^ self.w }
        ensures { result ≡ Norm.minus self.w n }
    {
        if n == 0 { 0 } else { power(self.w) - n }
    }

    // ---- packing

    // A NaN is neither below nor above, and stays.
    fn step(self, x: f32) -> f32
        ensures { result ≡ stepped self.signed self.w x }
    {
        0.5 + whole(self.scale()) * x.clamp(self.least(), 1.0)
    }

    // Below 0 rounding down makes the size larger. A NaN is on neither side of 0.
    fn floor_code(self, v: f32) -> u32
        requires { T (fits binary32 v) }
        ensures { result ≡ floor_code self.signed self.w v }
    {
        if v >= 0.0 {
            size_down(v).min(self.scale())
        } else if v < 0.0 {
            self.minus(size_up(-v).min(self.depth()))
        } else {
            0
        }
    }

    #[tactic(auto, unfolding(crate::specs::Norm::packed_norm))]
    pub fn pack(self, x: u32) -> u32
        ensures { result ≡ packed_norm self.signed self.w x }
    {
        self.floor_code(self.step(f32_of(x)))
    }

    // ---- unpacking

    // From half of the signed codes up, a code stands for itself less the number of all codes.
    fn number(self, c: u32) -> f32
        requires { c < 2 ^ self.w }
        ensures { result ≡ of_int binary32 (Norm.number self.signed self.w c) }
    {
        if self.signed {
            if c < power(self.w - 1) {
                whole(c)
            } else {
                -whole(power(self.w) - c)
            }
        } else {
            whole(c)
        }
    }

    #[tactic(auto, unfolding(crate::specs::Norm::unpacked_norm))]
    pub fn unpack(self, c: u32) -> u32
        requires { c < 2 ^ self.w }
        ensures { result ≡ unpacked_norm self.signed self.w c }
    {
        bits_of(at_least(self.least(), self.number(c) / whole(self.scale())))
    }
}
