// floor, ceil, trunc, round and fract: the lanes are the crate rounding's.
ghost use Rattle.std.specs.Prelude.{◌≡◌, eqb};
ghost use Rattle.values.specs.Value.{scalar_of, kind_at, empty_value};
ghost use Rattle.values.specs.Program.{four};
ghost use Rattle.rounding.specs.Lanes.{whole_lane};
ghost use Rattle.calls.specs.Program.{judged_in, First};
ghost use Rattle.arms.specs.Program.{given, outcome};

use crate::{Outcome, given};
use calls::Builtin;
use calls::table::Shape;
use judging::tests::one_value;
use places::scalar_at;
use readings::Reading;
use rounding::Way;

pub fn whole(w: &[u64], n: u64, p: u64, set: u64, way: Way, x: [u32; 4]) -> Outcome
    requires { First w.now p }
    ensures { result ≡ given (eqb (judged_in Shape.OneValue set n w.now) 0) p (four (whole_lane way (scalar_of (kind_at p))) x) }
{
    given(
        one_value(w, n, p, set),
        p,
        rounding::whole(way, scalar_at(p), x),
    )
}

pub fn fract(w: &[u64], n: u64, p: u64, set: u64, x: [u32; 4]) -> Outcome
    requires { First w.now p }
    ensures { result ≡ outcome Reading.Crate Builtin.Fract (eqb (judged_in Shape.OneValue set n w.now) 0) 0 p x empty_value empty_value }
{
    given(one_value(w, n, p, set), p, rounding::fract(scalar_at(p), x))
}
