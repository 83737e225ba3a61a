// What an arm of the fold tests of a call of words, by the shape of its row. The first value is at hand: well formed, of the type at p. Each test passes a call of n
// arguments just where nothing refuses it.
ghost use Rattle.std.specs.Prelude.{◌≡◌, ◌≤◌, ◌<◌, eqb};
ghost use Rattle.values.specs.Value.{kind_at};
ghost use Rattle.words.specs.Words.{value_at};
ghost use Rattle.calls.specs.declared.Builtin.TheVariants.{Ldexp, Bitcast};
ghost use Rattle.calls.specs.Table.{takes};
ghost use Rattle.calls.specs.Program.{types_of, judged_in, is_of, chooses, First};

use calls::table::Shape;

// Whether a scalar or a vector of the type at p stands there, well formed.
fn is_at(w: &[u64], at: usize, p: u64) -> bool
    requires { (at ≤ 37) × (0 < p) × (p ≤ 20) }
    ensures { result ≡ is_of (value_at w.now at) (kind_at p) }
{
    words::formed_as(w, at, p)
}

// Whether a condition of a type of the set stands third that chooses among values of the type at p.
fn is_condition(w: &[u64], p: u64, set: u64) -> bool
    requires { p < 39 }
    ensures { result ≡ chooses set (value_at w.now 37) (kind_at p) }
{
    let q = words::place_at(w, 37);
    words::formed_at(w, 37) & (places::among(set, q) & ((q == 1) | (q == places::booleans_at(p))))
}

pub fn one_value(w: &[u64], n: u64, p: u64, set: u64) -> bool
    requires { First w.now p }
    ensures { result ≡ eqb (judged_in Shape.OneValue set n w.now) 0 }
{
    (n == 1) & places::among(set, p)
}

pub fn two_alike(w: &[u64], n: u64, p: u64, set: u64) -> bool
    requires { First w.now p }
    ensures { result ≡ eqb (judged_in Shape.TwoAlike set n w.now) 0 }
{
    (n == 2) & (places::among(set, p) & is_at(w, 20, p))
}

pub fn three_alike(w: &[u64], n: u64, p: u64, set: u64) -> bool
    requires { First w.now p }
    ensures { result ≡ eqb (judged_in Shape.ThreeAlike set n w.now) 0 }
{
    (n == 3) & (places::among(set, p) & (is_at(w, 20, p) & is_at(w, 37, p)))
}

pub fn selecting(w: &[u64], n: u64, p: u64, set: u64) -> bool
    requires { First w.now p }
    ensures { result ≡ eqb (judged_in Shape.Selecting set n w.now) 0 }
{
    (n == 3) & (is_at(w, 20, p) & is_condition(w, p, set))
}

// ldexp's.
pub fn scaling(w: &[u64], n: u64, p: u64, set: u64) -> bool
    requires { First w.now p × (set ≡ types_of (takes Ldexp)) }
    ensures { result ≡ eqb (judged_in Shape.Scaling set n w.now) 0 }
{
    (n == 2) & (places::among(set, p) & is_at(w, 20, places::integers_at(p)))
}

// bitcast's.
pub fn casting(w: &[u64], n: u64, p: u64, set: u64) -> bool
    requires { First w.now p × (set ≡ types_of (takes Bitcast)) }
    ensures { result ≡ eqb (judged_in Shape.Casting set n w.now) 0 }
{
    let t = places::known(words::word(w, 2));
    (n == 2)
        & (places::among(set, p)
            & (places::among(set, t) & (calls::table::bytes_at(t) == calls::table::bytes_at(p))))
}
