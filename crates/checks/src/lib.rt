// Whether a value is well formed: its lanes in use below the bound of their scalar, the others 0.
#![tactic(auto)]

ghost use Rattle.std.specs.Prelude.{◌≡◌, ◌&&◌, cond, ◌^◌, ◌≤◌, ltb, eqb, length, take, drop, get_or};
ghost use Rattle.values.specs.Value.{lane_bits, every, well_formed};

use values::{Scalar, Value};

// The first number that a lane of this scalar cannot be.
fn lane_bound(s: Scalar) -> u64
    ensures { result ≡ 2 ^ lane_bits s }
{
    match s {
        Scalar::Boolean => 2,
        Scalar::I32 | Scalar::U32 | Scalar::F32 => 0x1_0000_0000,
        Scalar::F16 => 0x1_0000,
    }
}

fn limit_at(i: usize, n: usize, bound: u64) -> u64
    ensures { result ≡ cond (ltb i n) bound 1 }
{
    if i < n { bound } else { 1 }
}

// Whether the first four lanes are below the bound where they are among the first n, and 0 where not. A fold over them was tried, and is no plainer.
fn four_ok(l: &[u64], n: usize, bound: u64) -> bool
    requires { length l.now ≡ 16 }
    ensures { result ≡ ltb (get_or l.now 0 0) (cond (ltb 0 n) bound 1) && ltb (get_or l.now 1 0) (cond (ltb 1 n) bound 1)
        && ltb (get_or l.now 2 0) (cond (ltb 2 n) bound 1) && ltb (get_or l.now 3 0) (cond (ltb 3 n) bound 1) }
{
    (l[0] < limit_at(0, n, bound))
        & (l[1] < limit_at(1, n, bound))
        & (l[2] < limit_at(2, n, bound))
        & (l[3] < limit_at(3, n, bound))
}

// Whether the lanes past the fourth are 0.
fn none_past(l: &[u64]) -> bool
    requires { length l.now ≡ 16 }
    ensures { result ≡ every (λ x. eqb x 0) (drop 4 l.now) }
{
    let mut none = true;
    for x in &l[4..] {
        none &= *x == 0;
    }
    none
}

// Whether the first n of all 16 lanes are below the bound and the others 0, as a matrix has them.
fn all_ok(l: &[u64], n: usize, bound: u64) -> bool
    requires { length l.now ≡ 16 }
    ensures { result ≡ every (λ x. ltb x bound) (take n l.now) && every (λ x. eqb x 0) (drop n l.now) }
{
    for (i, x) in l.iter().enumerate() {
        if limit_at(i, n, bound) <= *x {
            return false;
        }
    }
    true
}

// Whether the first n of 16 lanes, four at most, are below the bound and the others 0: without a branch.
pub fn few_formed(l: &[u64], n: usize, bound: u64) -> bool
    requires { (length l.now ≡ 16) × (n ≤ 4) }
    ensures { result ≡ every (λ x. ltb x bound) (take n l.now) && every (λ x. eqb x 0) (drop n l.now) }
{
    four_ok(l, n, bound) & none_past(l)
}

// Whether the first n of 16 lanes are below the bound and the others 0.
pub fn lanes_formed(l: &[u64], n: usize, bound: u64) -> bool
    requires { length l.now ≡ 16 }
    ensures { result ≡ every (λ x. ltb x bound) (take n l.now) && every (λ x. eqb x 0) (drop n l.now) }
{
    if n <= 4 {
        few_formed(l, n, bound)
    } else {
        all_ok(l, n, bound)
    }
}

pub fn well_formed(v: Value) -> bool
    ensures { result ≡ well_formed v }
{
    let k = v.kind;
    let l = v.lanes;
    values::is_type(k) & lanes_formed(&l, values::lane_count(k), lane_bound(values::scalar_of(k)))
}
