// min, max, clamp, saturate and step: the lanes are the crate limits's.
ghost use Rattle.std.specs.Prelude.{◌≡◌, eqb};
ghost use Rattle.values.specs.Value.{empty_value};
ghost use Rattle.words.specs.Words.{value_at};
ghost use Rattle.calls.specs.Program.{judged_in, First};
ghost use Rattle.arms.specs.Program.{outcome};

use crate::{Outcome, given};
use calls::Builtin;
use calls::table::Shape;
use judging::tests;
use places::scalar_at;
use readings::Reading;
use words::cut_at;

pub fn min(w: &[u64], n: u64, p: u64, set: u64, x: [u32; 4]) -> Outcome
    requires { First w.now p }
    ensures { result ≡ outcome Reading.Crate Builtin.Min (eqb (judged_in Shape.TwoAlike set n w.now) 0) 0 p x (value_at w.now 20) (value_at w.now 37) }
{
    let ok = tests::two_alike(w, n, p, set);
    given(ok, p, limits::min(scalar_at(p), x, cut_at(w, 20)))
}

pub fn max(w: &[u64], n: u64, p: u64, set: u64, x: [u32; 4]) -> Outcome
    requires { First w.now p }
    ensures { result ≡ outcome Reading.Crate Builtin.Max (eqb (judged_in Shape.TwoAlike set n w.now) 0) 0 p x (value_at w.now 20) (value_at w.now 37) }
{
    let ok = tests::two_alike(w, n, p, set);
    given(ok, p, limits::max(scalar_at(p), x, cut_at(w, 20)))
}

pub fn clamp(w: &[u64], n: u64, p: u64, set: u64, x: [u32; 4]) -> Outcome
    requires { First w.now p }
    ensures { result ≡ outcome Reading.Crate Builtin.Clamp (eqb (judged_in Shape.ThreeAlike set n w.now) 0) 0 p x (value_at w.now 20) (value_at w.now 37) }
{
    let ok = tests::three_alike(w, n, p, set);
    let e = limits::clamp(scalar_at(p), x, cut_at(w, 20), cut_at(w, 37));
    given(ok, p, e)
}

pub fn saturate(w: &[u64], n: u64, p: u64, set: u64, x: [u32; 4]) -> Outcome
    requires { First w.now p }
    ensures { result ≡ outcome Reading.Crate Builtin.Saturate (eqb (judged_in Shape.OneValue set n w.now) 0) 0 p x empty_value empty_value }
{
    given(tests::one_value(w, n, p, set), p, limits::saturate(x))
}

pub fn step(w: &[u64], n: u64, p: u64, set: u64, x: [u32; 4]) -> Outcome
    requires { First w.now p }
    ensures { result ≡ outcome Reading.Crate Builtin.Step (eqb (judged_in Shape.TwoAlike set n w.now) 0) 0 p x (value_at w.now 20) (value_at w.now 37) }
{
    let ok = tests::two_alike(w, n, p, set);
    given(ok, p, limits::step(scalar_at(p), x, cut_at(w, 20)))
}
