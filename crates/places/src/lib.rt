// Types by their places, 0 to 38: the scalars and then the vectors stand five to a length, 1 to 20, the matrices nine to a width behind them. No
// table: one that is read by a place is copied each time.
#![tactic(auto)]

ghost use Rattle.std.specs.Prelude.{◌≡◌, cond, ◌||◌, ◌+◌, ◌-◌, ◌*◌, ◌/◌, ◌^◌, ◌≤◌, ◌<◌, eqb, ltb};
ghost use Rattle.values.specs.declared.Scalar.TheVariants.{Boolean, I32};
ghost use Rattle.values.specs.Value.{lane_bits, scalar_of, lane_count, shaped, place, kind_at};
ghost use Rattle.places.specs.Program.{member};

use choosing::choose;
use values::Scalar;

// Whether the type is in a set, which has a bit for each place.
pub fn among(set: u64, p: u64) -> bool
    requires { p < 64 }
    ensures { result ≡ member set p }
{
    (set >> p) % 2 == 1
}

// The place of the type of a number: 0 where it is no type's.
pub fn known(n: u64) -> u64
    ensures { (result ≡ place (kind_at n)) × (result < 39) }
{
    if n < 39 { n } else { 0 }
}

// How many lanes the type has, of a scalar or a vector.
pub fn few_at(p: u64) -> usize
    requires { p ≤ 20 }
    ensures { (result ≡ lane_count (kind_at p)) × (result ≤ 4) }
{
    ((p + 4) / 5) as usize
}

// How many lanes the type has.
pub fn count_at(p: u64) -> usize
    requires { p < 39 }
    ensures { (result ≡ lane_count (kind_at p)) × (result ≤ 16) }
{
    if p <= 20 {
        return few_at(p);
    }
    let columns = (p - 21) % 9 / 3 + 2;
    let rows = (p - 21) % 3 + 2;
    (columns * rows) as usize
}

// The types of bool lanes, with no type among them, and those of f16 lanes.
const BITS: u64 = 0x1_0843;

const HALVES: u64 = 0x7f_c010_8420;

// The first number that a lane of the type cannot be.
pub fn bound_at(p: u64) -> u64
    requires { p < 39 }
    ensures { result ≡ 2 ^ lane_bits (scalar_of (kind_at p)) }
{
    let wide = choose(among(HALVES, p), 0x1_0000, 0x1_0000_0000);
    choose(among(BITS, p), 2, wide)
}

// What the lanes of the type are.
pub fn scalar_at(p: u64) -> Scalar
    requires { p < 39 }
    ensures { result ≡ scalar_of (kind_at p) }
{
    if p == 0 {
        return Scalar::Boolean;
    }
    if p > 29 {
        return Scalar::F16;
    }
    if p > 20 {
        return Scalar::F32;
    }
    match (p + 4) % 5 {
        0 => Scalar::Boolean,
        1 => Scalar::I32,
        2 => Scalar::U32,
        3 => Scalar::F32,
        _ => Scalar::F16,
    }
}

// The type of that shape with the k-th scalar, counted from 0; no matrix has one.
fn shaped_at(p: u64, k: u64) -> u64
    requires { k ≤ 1 }
    ensures { result ≡ cond (eqb p 0 || ltb 20 p) 0 ((p - 1) / 5 * 5 + 1 + k) }
{
    if (p == 0) | (p > 20) {
        return 0;
    }
    (p - 1) / 5 * 5 + 1 + k
}

// The type of that shape with bool lanes.
pub fn booleans_at(p: u64) -> u64
    requires { p < 39 }
    ensures { result ≡ place (shaped Boolean (kind_at p)) }
{
    shaped_at(p, 0)
}

// The type of that shape with i32 lanes.
pub fn integers_at(p: u64) -> u64
    requires { p < 39 }
    ensures { (result ≡ place (shaped I32 (kind_at p))) × (result ≤ 20) }
{
    shaped_at(p, 1)
}
