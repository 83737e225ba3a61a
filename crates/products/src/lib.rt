// cross and dot. Floats: each operation rounded once, in the order written. Integer products and sums wrap at 32 bits.
#![tactic(auto)]

ghost use Rattle.std.specs.Prelude.{ℕ, ◌≡◌, ◌+◌, ◌-◌, ◌*◌, ◌%◌, ◌^◌, ◌<◌, min, [], ◌∷◌, from_bits, slice_index};
ghost use Rattle.std.specs.Float.{binary32};
ghost use Rattle.std.specs.Float.Ieee.{add, mul};
ghost use Rattle.products.specs.Products.{cross_lane, summed, dot_lane};

use values::Scalar;

fn product(x: u32, y: u32) -> f32
    ensures { result ≡ mul binary32 (from_bits binary32 x) (from_bits binary32 y) }
{
    floats::f32_of(x) * floats::f32_of(y)
}

// ---- cross

// a d - b c
pub fn cross_lane(a: u32, d: u32, b: u32, c: u32) -> u32
    ensures { result ≡ cross_lane a d b c }
{
    floats::bits_of(product(a, d) - product(b, c))
}

// Of the first three lanes.
pub fn cross(x: [u32; 4], y: [u32; 4]) -> [u32; 4]
    ensures { result ≡ cross_lane (slice_index x 1) (slice_index y 2) (slice_index x 2) (slice_index y 1)
        ∷ cross_lane (slice_index x 2) (slice_index y 0) (slice_index x 0) (slice_index y 2)
        ∷ cross_lane (slice_index x 0) (slice_index y 1) (slice_index x 1) (slice_index y 0) ∷ 0 ∷ [] }
{
    [
        cross_lane(x[1], y[2], x[2], y[1]),
        cross_lane(x[2], y[0], x[0], y[2]),
        cross_lane(x[0], y[1], x[1], y[0]),
        0,
    ]
}

// ---- dot

// The low 32 bits of the product. A multiplication of our own, as 01 has it.
fn wrapping_mul(a: u32, b: u32) -> u32
    ensures { result ≡ (a * b) % 2 ^ 32 }
{
    ((a as u64) * (b as u64) % 0x1_0000_0000) as u32
}

// What a lane's products and sums are: of words, or of the floats that the words stand for.
trait Summand: Copy {
    ghost times: { ℕ → ℕ → Self };

    ghost plus: { Self → Self → Self };

    fn product(x: u32, y: u32) -> Self
        ensures { result ≡ times x y };

    fn add(self, other: Self) -> Self
        ensures { result ≡ plus self other };
}

// The low 32 bits of each.
impl Summand for u32 {
    ghost times = { λ x y. (x * y) % 2 ^ 32 };

    ghost plus = { λ x y. (x + y) % 2 ^ 32 };

    fn product(x: u32, y: u32) -> u32 {
        wrapping_mul(x, y)
    }

    fn add(self, other: u32) -> u32 {
        self.wrapping_add(other)
    }
}

impl Summand for f32 {
    ghost times = { λ x y. mul binary32 (from_bits binary32 x) (from_bits binary32 y) };

    ghost plus = { add binary32 };

    fn product(x: u32, y: u32) -> f32 {
        product(x, y)
    }

    fn add(self, other: f32) -> f32 {
        self + other
    }
}

// Up to lane `last`, from the first product: 0 plus a -0 would be 0.
fn dot_to<T: Summand>(last: usize, x: [u32; 4], y: [u32; 4]) -> T
    requires { last < 4 }
    ensures { result ≡ summed T.plus (λ i. T.times (slice_index x i) (slice_index y i)) last }
{
    let mut sum = T::product(x[0], y[0]);
    for i in 0..last {
        sum = sum.add(T::product(x[i + 1], y[i + 1]));
    }
    sum
}

// Of the first n lanes.
pub fn dot(s: Scalar, n: usize, x: [u32; 4], y: [u32; 4]) -> u32
    ensures { result ≡ dot_lane s (λ i. slice_index x i) (λ i. slice_index y i) (min n 4 - 1) }
{
    let last = n.min(4).saturating_sub(1);
    match s {
        Scalar::I32 | Scalar::U32 => dot_to::<u32>(last, x, y),
        Scalar::F32 => floats::bits_of(dot_to::<f32>(last, x, y)),
        Scalar::Boolean | Scalar::F16 => 0,
    }
}
