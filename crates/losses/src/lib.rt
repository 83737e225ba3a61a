// From an f32's bit pattern to a half's, and what was lost on the way.
#![tactic(auto)]

ghost use Rattle.std.specs.Prelude.{◌≡◌, ◌≤◌, eqb};
ghost use Rattle.half.specs.Convert.{half_of, single_of};
ghost use Rattle.losses.specs.Losses.{loss_number, loss_of, told_of};

// Rounded: to a finite half, which may be a zero. Overflowed: a finite number became an infinity. The larger loss is the one with the larger number.
#[derive(Clone, Copy, PartialEq, Eq, PartialOrd, Ord)]
pub enum Loss {
    Exact,
    Rounded,
    Overflowed,
}

impl From<Loss> for u8 {
    ghost from_gives = { λ l n. (n ≡ loss_number l) × (n ≤ 2) };

    fn from(l: Loss) -> u8 {
        match l {
            Loss::Exact => 0,
            Loss::Rounded => 1,
            Loss::Overflowed => 2,
        }
    }
}

#[derive(Clone, Copy)]
pub struct Converted {
    pub half: u16,
    pub loss: Loss,
}

// Whether the f32 of the half h is the f32 again.
fn comes_back(bits: u32, h: u16) -> bool
    ensures { result ≡ eqb (single_of h) bits }
{
    half::f16_to_f32(h) == bits
}

// What an f32 lost that became the half h: an infinity or a NaN nothing, and a number that became a finite half nothing where it comes back.
fn loss_of(bits: u32, h: u16) -> Loss
    requires { h ≡ half_of bits }
    ensures { result ≡ loss_of bits }
{
    if bits % 0x8000_0000 >= 0x7f80_0000 {
        return Loss::Exact;
    }
    if h % 0x8000 == 0x7c00 {
        return Loss::Overflowed;
    }
    if comes_back(bits, h) {
        return Loss::Exact;
    }
    Loss::Rounded
}

pub fn f32_to_f16_told(bits: u32) -> Converted
    ensures { result ≡ told_of bits }
{
    let h = half::f32_to_f16(bits);
    Converted {
        half: h,
        loss: loss_of(bits, h),
    }
}
