// frexp and ldexp: the lanes are the crate exponent's.
ghost use Rattle.std.specs.Prelude.{◌≡◌, eqb};
ghost use Rattle.values.specs.Value.{empty_value};
ghost use Rattle.words.specs.Words.{value_at};
ghost use Rattle.calls.specs.Table.{takes};
ghost use Rattle.calls.specs.Program.{types_of, judged_in, First};
ghost use Rattle.arms.specs.Program.{outcome};

use crate::{Outcome, given, given_two};
use calls::Builtin;
use calls::table::Shape;
use judging::tests;
use places::scalar_at;
use readings::Reading;
use words::cut_at;

pub fn frexp(w: &[u64], n: u64, p: u64, set: u64, x: [u32; 4]) -> Outcome
    requires { First w.now p }
    ensures { result ≡ outcome Reading.Crate Builtin.Frexp (eqb (judged_in Shape.OneValue set n w.now) 0) 0 p x empty_value empty_value }
{
    let s = scalar_at(p);
    let ok = tests::one_value(w, n, p, set);
    let fractions = exponent::fraction(s, x);
    let q = places::integers_at(p);
    given_two(ok, p, fractions, q, exponent::exponent(s, x))
}

pub fn ldexp(w: &[u64], n: u64, p: u64, set: u64, x: [u32; 4]) -> Outcome
    requires { First w.now p × (set ≡ types_of (takes Builtin.Ldexp)) }
    ensures { result ≡ outcome Reading.Crate Builtin.Ldexp (eqb (judged_in Shape.Scaling set n w.now) 0) 0 p x (value_at w.now 20) (value_at w.now 37) }
{
    let ok = tests::scaling(w, n, p, set);
    given(ok, p, exponent::ldexp(x, cut_at(w, 20)))
}
