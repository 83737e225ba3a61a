// cross and dot: the lanes are the crate products's.
ghost use Rattle.std.specs.Prelude.{◌≡◌, eqb};
ghost use Rattle.words.specs.Words.{value_at};
ghost use Rattle.calls.specs.Program.{judged_in, First};
ghost use Rattle.arms.specs.Program.{outcome};

use crate::{Outcome, given, given_one};
use calls::Builtin;
use calls::table::Shape;
use judging::tests::two_alike;
use places::{count_at, scalar_at};
use readings::Reading;
use values::Kind;
use words::cut_at;

pub fn cross(w: &[u64], n: u64, p: u64, set: u64, x: [u32; 4]) -> Outcome
    requires { First w.now p }
    ensures { result ≡ outcome Reading.Crate Builtin.Cross (eqb (judged_in Shape.TwoAlike set n w.now) 0) 0 p x (value_at w.now 20) (value_at w.now 37) }
{
    let ok = two_alike(w, n, p, set);
    given(ok, p, products::cross(x, cut_at(w, 20)))
}

pub fn dot(w: &[u64], n: u64, p: u64, set: u64, x: [u32; 4]) -> Outcome
    requires { First w.now p }
    ensures { result ≡ outcome Reading.Crate Builtin.Dot (eqb (judged_in Shape.TwoAlike set n w.now) 0) 0 p x (value_at w.now 20) (value_at w.now 37) }
{
    let s = scalar_at(p);
    let ok = two_alike(w, n, p, set);
    let t = values::place_of(Kind::One(s));
    given_one(ok, t, products::dot(s, count_at(p), x, cut_at(w, 20)))
}
