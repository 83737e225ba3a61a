// all, any and select.
ghost use Rattle.std.specs.Prelude.{◌≡◌, eqb, take};
ghost use Rattle.values.specs.Value.{empty_value, flag, every};
ghost use Rattle.words.specs.Words.{value_at};
ghost use Rattle.calls.specs.Program.{judged_in, First};
ghost use Rattle.arms.specs.Program.{condition_of, outcome};

use crate::{BOOL, Outcome, given, given_one};
use calls::Builtin;
use calls::table::Shape;
use judging::tests;
use places::count_at;
use readings::Reading;
use words::cut_at;

// Whether each of the first n lanes is v.
fn each_is(n: usize, x: [u32; 4], v: u32) -> bool
    ensures { result ≡ every (λ y. eqb y v) (take n x) }
{
    ((x[0] == v) | (n < 1))
        & ((x[1] == v) | (n < 2))
        & ((x[2] == v) | (n < 3))
        & ((x[3] == v) | (n < 4))
}

fn flag_of(b: bool) -> u32
    ensures { result ≡ flag b }
{
    if b { 1 } else { 0 }
}

// The lanes of the condition, which stands third. A scalar one holds for every lane.
fn condition(w: &[u64]) -> [u32; 4]
    ensures { result ≡ condition_of (value_at w.now 37) }
{
    let x = cut_at(w, 37);
    if words::place_at(w, 37) == BOOL {
        [x[0], x[0], x[0], x[0]]
    } else {
        x
    }
}

pub fn all(w: &[u64], n: u64, p: u64, set: u64, x: [u32; 4]) -> Outcome
    requires { First w.now p }
    ensures { result ≡ outcome Reading.Crate Builtin.All (eqb (judged_in Shape.OneValue set n w.now) 0) 0 p x empty_value empty_value }
{
    let ok = tests::one_value(w, n, p, set);
    given_one(ok, BOOL, flag_of(each_is(count_at(p), x, 1)))
}

pub fn any(w: &[u64], n: u64, p: u64, set: u64, x: [u32; 4]) -> Outcome
    requires { First w.now p }
    ensures { result ≡ outcome Reading.Crate Builtin.Any (eqb (judged_in Shape.OneValue set n w.now) 0) 0 p x empty_value empty_value }
{
    let ok = tests::one_value(w, n, p, set);
    given_one(ok, BOOL, flag_of(!each_is(count_at(p), x, 0)))
}

pub fn select(w: &[u64], n: u64, p: u64, set: u64, x: [u32; 4]) -> Outcome
    requires { First w.now p }
    ensures { result ≡ outcome Reading.Crate Builtin.Select (eqb (judged_in Shape.Selecting set n w.now) 0) 0 p x (value_at w.now 20) (value_at w.now 37) }
{
    let ok = tests::selecting(w, n, p, set);
    given(ok, p, moves::select_four(x, cut_at(w, 20), condition(w)))
}
