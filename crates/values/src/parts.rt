// The places of types by the places of their parts, and back.
ghost use Rattle.std.specs.Prelude.{◌≡◌, ◌+◌, ◌*◌, ◌≤◌, ◌<◌};
ghost use Rattle.values.specs.Value.{scalar_place, size_place, width_place, place};

use crate::{Kind, Scalar, Size, Width};

fn scalar_place(s: Scalar) -> u64
    ensures { (result ≡ scalar_place s) × (result ≤ 4) }
{
    s as u64
}

fn size_place(s: Size) -> u64
    ensures { (result ≡ size_place s) × (result ≤ 2) }
{
    s as u64
}

fn width_place(w: Width) -> u64
    ensures { (result ≡ width_place w) × (result ≤ 1) }
{
    w as u64
}

pub fn one_place(s: Scalar) -> u64
    ensures { result ≡ 1 + scalar_place s }
{
    1 + scalar_place(s)
}

pub fn vec_place(n: Size, s: Scalar) -> u64
    ensures { result ≡ 6 + 5 * size_place n + scalar_place s }
{
    6 + 5 * size_place(n) + scalar_place(s)
}

pub fn mat_place(c: Size, r: Size, w: Width) -> u64
    ensures { result ≡ 21 + 9 * width_place w + 3 * size_place c + size_place r }
{
    21 + 9 * width_place(w) + 3 * size_place(c) + size_place(r)
}

fn scalar_at(n: u64) -> Scalar
    requires { n < 5 }
    ensures { scalar_place result ≡ n }
{
    match n {
        0 => Scalar::Boolean,
        1 => Scalar::I32,
        2 => Scalar::U32,
        3 => Scalar::F32,
        _ => Scalar::F16,
    }
}

fn size_at(n: u64) -> Size
    requires { n < 3 }
    ensures { size_place result ≡ n }
{
    match n {
        0 => Size::Two,
        1 => Size::Three,
        _ => Size::Four,
    }
}

fn width_at(n: u64) -> Width
    requires { n < 2 }
    ensures { width_place result ≡ n }
{
    if n == 0 { Width::Single } else { Width::Half }
}

pub fn one_at(n: u64) -> Kind
    requires { n < 5 }
    ensures { place result ≡ 1 + n }
{
    Kind::One(scalar_at(n))
}

pub fn vec_at(n: u64) -> Kind
    requires { n < 15 }
    ensures { place result ≡ 6 + n }
{
    Kind::Vec(size_at(n / 5), scalar_at(n % 5))
}

pub fn mat_at(n: u64) -> Kind
    requires { n < 18 }
    ensures { place result ≡ 21 + n }
{
    Kind::Mat(size_at(n % 9 / 3), size_at(n % 3), width_at(n / 9))
}
