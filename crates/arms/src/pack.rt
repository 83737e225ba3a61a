// Packing and unpacking words: the words and the lanes are packing's, by the codings of their formats.
ghost use Rattle.std.specs.Prelude.{◌≡◌, [], ◌∷◌, ◌++◌, map, eqb, take, get_or};
ghost use Rattle.values.specs.Program.{four};
ghost use Rattle.numeric.specs.Parts.{parts, joined};
ghost use Rattle.losses.specs.Losses.{largest};
ghost use Rattle.packing.specs.Program.{code8_of, lane8_of, code16_of, loss16_of, lane16_of, clamp_four};
ghost use Rattle.calls.specs.Program.{judged_in, First};
ghost use Rattle.arms.specs.Program.{given, given_one, given_word};

use crate::{Outcome, U32, VEC2_F32, given, given_one, given_word};
use calls::table::Shape;
use engines::Engine;
use judging::tests::one_value;
use packing::{Coding8, Coding16};
use readings::Reading;

pub fn pack8(
    reading: Reading,
    engine: Engine,
    w: &[u64],
    n: u64,
    p: u64,
    set: u64,
    t: Coding8,
    x: [u32; 4],
) -> Outcome
    requires { First w.now p }
    ensures { result ≡ given_one (eqb (judged_in Shape.OneValue set n w.now) 0) 3 (joined 8 (four (code8_of reading t) x)) }
{
    given_one(
        one_value(w, n, p, set),
        U32,
        packing::word8(reading, engine, t, x),
    )
}

pub fn pack16(
    reading: Reading,
    w: &[u64],
    n: u64,
    p: u64,
    set: u64,
    t: Coding16,
    x: [u32; 4],
) -> Outcome
    requires { First w.now p }
    ensures { result ≡ given_word (eqb (judged_in Shape.OneValue set n w.now) 0) (joined 16 (take 2 (four (code16_of reading t) x))) (largest (take 2 (four (loss16_of t) x))) }
{
    let c = packing::word16(reading, t, x);
    given_word(one_value(w, n, p, set), c.word, c.loss)
}

// pack4xI8Clamp: in the crate's reading a negative lane fills every lane above it.
pub fn pack_clamped(reading: Reading, w: &[u64], n: u64, p: u64, set: u64, x: [u32; 4]) -> Outcome
    requires { First w.now p }
    ensures { result ≡ given_one (eqb (judged_in Shape.OneValue set n w.now) 0) 3 (clamp_four reading x) }
{
    given_one(
        one_value(w, n, p, set),
        U32,
        packing::clamped_word(reading, x),
    )
}

// To the vector type at k.
pub fn unpack8(
    engine: Engine,
    w: &[u64],
    n: u64,
    p: u64,
    set: u64,
    t: Coding8,
    k: u64,
    x: [u32; 4],
) -> Outcome
    requires { First w.now p }
    ensures { result ≡ given (eqb (judged_in Shape.OneValue set n w.now) 0) k (map (lane8_of t) (parts 8 4 (get_or x 0 0))) }
{
    given(one_value(w, n, p, set), k, packing::lanes8(engine, t, x[0]))
}

pub fn unpack16(w: &[u64], n: u64, p: u64, set: u64, t: Coding16, x: [u32; 4]) -> Outcome
    requires { First w.now p }
    ensures { result ≡ given (eqb (judged_in Shape.OneValue set n w.now) 0) 9 (map (lane16_of t) (parts 16 2 (get_or x 0 0)) ++ 0 ∷ 0 ∷ []) }
{
    given(one_value(w, n, p, set), VEC2_F32, packing::lanes16(t, x[0]))
}
