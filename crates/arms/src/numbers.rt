// abs, sign and the counts: the lanes are the crate numeric's. An arm is handed the call's words, its count of arguments n, the place p of the first value's type, the types
// of its row and the first value's lanes.
ghost use Rattle.std.specs.Prelude.{◌≡◌, eqb};
ghost use Rattle.values.specs.Value.{empty_value};
ghost use Rattle.calls.specs.Program.{judged_in, First};
ghost use Rattle.arms.specs.Program.{outcome};

use crate::{Outcome, given};
use calls::Builtin;
use calls::table::Shape;
use judging::tests::one_value;
use places::scalar_at;
use readings::Reading;

pub fn abs(w: &[u64], n: u64, p: u64, set: u64, x: [u32; 4]) -> Outcome
    requires { First w.now p }
    ensures { result ≡ outcome Reading.Crate Builtin.Abs (eqb (judged_in Shape.OneValue set n w.now) 0) 0 p x empty_value empty_value }
{
    given(one_value(w, n, p, set), p, numeric::abs(scalar_at(p), x))
}

pub fn sign(w: &[u64], n: u64, p: u64, set: u64, x: [u32; 4]) -> Outcome
    requires { First w.now p }
    ensures { result ≡ outcome Reading.Crate Builtin.Sign (eqb (judged_in Shape.OneValue set n w.now) 0) 0 p x empty_value empty_value }
{
    given(one_value(w, n, p, set), p, numeric::sign(scalar_at(p), x))
}

pub fn count_leading_zeros(w: &[u64], n: u64, p: u64, set: u64, x: [u32; 4]) -> Outcome
    requires { First w.now p }
    ensures { result ≡ outcome Reading.Crate Builtin.CountLeadingZeros (eqb (judged_in Shape.OneValue set n w.now) 0) 0 p x empty_value empty_value }
{
    given(one_value(w, n, p, set), p, numeric::count_leading_zeros(x))
}

pub fn count_one_bits(w: &[u64], n: u64, p: u64, set: u64, x: [u32; 4]) -> Outcome
    requires { First w.now p }
    ensures { result ≡ outcome Reading.Crate Builtin.CountOneBits (eqb (judged_in Shape.OneValue set n w.now) 0) 0 p x empty_value empty_value }
{
    given(one_value(w, n, p, set), p, numeric::count_one_bits(x))
}

pub fn count_trailing_zeros(w: &[u64], n: u64, p: u64, set: u64, x: [u32; 4]) -> Outcome
    requires { First w.now p }
    ensures { result ≡ outcome Reading.Crate Builtin.CountTrailingZeros (eqb (judged_in Shape.OneValue set n w.now) 0) 0 p x empty_value empty_value }
{
    given(one_value(w, n, p, set), p, numeric::count_trailing_zeros(x))
}
