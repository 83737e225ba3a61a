// Values as words of 64 bits: specs/Words says what stands where. They are read, checked and put where they stand; a type is its place.
#![tactic(auto)]

ghost use Rattle.std.specs.Prelude.{◌≡◌, cond, ◌&&◌, ◌+◌, ◌≤◌, ◌<◌, eqb, ltb, length, take, drop, get_or};
ghost use Rattle.values.specs.Value.{lane_count, place, kind_at, value, empty_value, well_formed};
ghost use Rattle.values.specs.Program.{low, four};
ghost use Rattle.buffers.specs.Memory.{put};
ghost use Rattle.words.specs.Words.{value_at, words_of};

use values::Value;

pub fn word(w: &[u64], i: usize) -> u64
    ensures { result ≡ get_or w.now i 0 }
{
    if i < w.len() { w[i] } else { 0 }
}

// The place of the type of the value that stands there.
pub fn place_at(w: &[u64], at: usize) -> u64
    requires { at ≤ 37 }
    ensures { (result ≡ place (value_at w.now at).kind) × (result < 39) }
{
    if w.len() < at + 17 {
        return 0;
    }
    places::known(w[at])
}

// Whether the value that stands there is well formed.
pub fn formed_at(w: &[u64], at: usize) -> bool
    requires { at ≤ 37 }
    ensures { result ≡ well_formed (value_at w.now at) }
{
    if w.len() < at + 17 {
        return false;
    }
    let p = places::known(w[at]);
    (p != 0)
        & checks::lanes_formed(
            &w[at + 1..at + 17],
            places::count_at(p),
            places::bound_at(p),
        )
}

// Whether a scalar or a vector of the type at p stands there, well formed: without a branch, once all words are there.
pub fn formed_as(w: &[u64], at: usize, p: u64) -> bool
    requires { (at ≤ 37) × (0 < p) × (p ≤ 20) }
    ensures { result ≡ well_formed (value_at w.now at) && eqb (place (value_at w.now at).kind) p }
{
    if w.len() < at + 17 {
        return false;
    }
    (w[at] == p) & checks::few_formed(&w[at + 1..at + 17], places::few_at(p), places::bound_at(p))
}

// The first four lanes of the value that stands there, cut to 32 bits: of a well-formed scalar or vector nothing is lost.
pub fn cut_at(w: &[u64], at: usize) -> [u32; 4]
    requires { at ≤ 37 }
    ensures { result ≡ four low (value_at w.now at).lanes }
{
    if w.len() < at + 17 {
        return [0; 4];
    }
    // Written out: of `map` and `from_fn` here the proof did not close.
    [
        values::cut_lane(w[at + 1]),
        values::cut_lane(w[at + 2]),
        values::cut_lane(w[at + 3]),
        values::cut_lane(w[at + 4]),
    ]
}

// ---- put

// The words of the empty value, from `at` on.
pub fn clear(out: &mut [u64], at: usize)
    requires { at + 17 ≤ length out.old }
    ensures { out.new ≡ put out.old at (words_of empty_value) }
{
    out[at..at + 17].fill(0);
}

fn lane_at(i: usize, n: usize, x: [u32; 4]) -> u64
    ensures { result ≡ cond (ltb i 4) (cond (ltb i n) (get_or x i 0) 0) 0 }
{
    if i < 4 {
        values::kept_lane(i, n, x[i])
    } else {
        0
    }
}

// The words of the scalar or vector of the type at p whose lanes are the first of these, from `at` on; of place 0, the empty value's.
pub fn put_lanes(out: &mut [u64], at: usize, p: u64, x: [u32; 4])
    requires { (at + 17 ≤ length out.old) × (p ≤ 20) }
    ensures { out.new ≡ put out.old at (words_of (value (kind_at p) (take (lane_count (kind_at p)) x))) }
{
    let n = places::few_at(p);
    out[at] = p;
    for i in 0..16 {
        out[at + 1 + i] = lane_at(i, n, x);
    }
}

// ---- values by records

// The 16 words after the one at `at`.
fn sixteen(w: &[u64], at: usize) -> [u64; 16]
    requires { at + 17 ≤ length w.now }
    ensures { result ≡ take 16 (drop (at + 1) w.now) }
{
    let mut l = [0; 16];
    l.copy_from_slice(&w[at + 1..at + 17]);
    l
}

// The value whose words start at `at`. Inlined: a value is 17 words, which are copied once more where it is handed back.
#[inline(always)]
pub fn value_at(w: &[u64], at: usize) -> Value
    requires { at ≤ 37 }
    ensures { result ≡ value_at w.now at }
{
    if w.len() < at + 17 {
        return values::empty();
    }
    Value {
        kind: values::kind_at(w[at]),
        lanes: sixteen(w, at),
    }
}

// A value's words from `at` on.
pub fn put_value(out: &mut [u64], at: usize, v: Value)
    requires { at + 17 ≤ length out.old }
    ensures { out.new ≡ put out.old at (words_of v) }
{
    let k = v.kind;
    let l = v.lanes;
    out[at] = values::place_of(k);
    out[at + 1..at + 17].copy_from_slice(&l);
}
