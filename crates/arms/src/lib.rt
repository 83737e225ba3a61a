// What each builtin gives for a call whose first value is a scalar or a vector: its arm tests the call by the shape of its row, and works on four lanes. The lanes are the crates' below.
#![tactic(auto)]

mod bitcast;
mod logical;
mod numbers;
mod order;
mod pack;
mod powers;
mod vectors;
mod wholes;

ghost use Rattle.std.specs.Prelude.{◌≡◌, ◌≤◌, eqb, length, get_or};
ghost use Rattle.words.specs.Words.{value_at};
ghost use Rattle.calls.specs.Table.{takes};
ghost use Rattle.calls.specs.Program.{shape_of, types_of, judged_in, First};
ghost use Rattle.arms.specs.Program.{given, given_one, given_two, given_word, outcome};

use calls::{Builtin, types_of};
use engines::Engine;
use judging::tests::one_value;
use packing::{Coding8, Coding16};
use readings::Reading;
use rounding::Way;

// Places of types that arms answer with.
const BOOL: u64 = 1;

const U32: u64 = 3;

const VEC2_F32: u64 = 9;

const VEC4_I32: u64 = 17;

const VEC4_U32: u64 = 18;

const VEC4_F32: u64 = 19;

// What the arm of a builtin works out of a call whose first value is a scalar or a vector: whether the call passes, and two values, each by the place of its type and four
// lanes. Only frexp has a second one, its exponents, and only pack2x16float loses something.
#[derive(Clone, Copy)]
pub struct Outcome {
    pub passes: bool,
    pub first: u64,
    pub lanes: [u32; 4],
    pub second: u64,
    pub exponents: [u32; 4],
    pub loss: u8,
}

fn given(ok: bool, p: u64, x: [u32; 4]) -> Outcome
    ensures { result ≡ given ok p x }
{
    Outcome {
        passes: ok,
        first: p,
        lanes: x,
        second: 0,
        exponents: [0; 4],
        loss: 0,
    }
}

fn given_one(ok: bool, p: u64, x: u32) -> Outcome
    ensures { result ≡ given_one ok p x }
{
    given(ok, p, [x, 0, 0, 0])
}

// frexp's.
fn given_two(ok: bool, p: u64, x: [u32; 4], q: u64, y: [u32; 4]) -> Outcome
    ensures { result ≡ given_two ok p x q y }
{
    Outcome {
        passes: ok,
        first: p,
        lanes: x,
        second: q,
        exponents: y,
        loss: 0,
    }
}

// A word, and what was lost.
fn given_word(ok: bool, x: u32, loss: u8) -> Outcome
    ensures { result ≡ given_word ok x loss }
{
    Outcome {
        passes: ok,
        first: U32,
        lanes: [x, 0, 0, 0],
        second: 0,
        exponents: [0; 4],
        loss: loss,
    }
}

// The arm of each builtin. The one jump comes first; behind it each arm tests the call by the shape of its row and by the types of the row, a constant there.
pub fn arm(
    reading: Reading,
    engine: Engine,
    which: Builtin,
    w: &[u64],
    p: u64,
    x: [u32; 4],
) -> Outcome
    requires { (3 ≤ length w.now) × First w.now p }
    ensures { result ≡ outcome reading which (eqb (judged_in (shape_of (takes which)) (types_of (takes which)) (get_or w.now 1 0) w.now) 0)
        (get_or w.now 2 0) p x (value_at w.now 20) (value_at w.now 37) }
{
    let n = w[1];
    match which {
        Builtin::All => logical::all(w, n, p, types_of(Builtin::All), x),
        Builtin::Any => logical::any(w, n, p, types_of(Builtin::Any), x),
        Builtin::Select => logical::select(w, n, p, types_of(Builtin::Select), x),
        Builtin::Abs => numbers::abs(w, n, p, types_of(Builtin::Abs), x),
        Builtin::Sign => numbers::sign(w, n, p, types_of(Builtin::Sign), x),
        Builtin::CountLeadingZeros => numbers::count_leading_zeros(
            w,
            n,
            p,
            types_of(Builtin::CountLeadingZeros),
            x,
        ),
        Builtin::CountOneBits => numbers::count_one_bits(
            w,
            n,
            p,
            types_of(Builtin::CountOneBits),
            x,
        ),
        Builtin::CountTrailingZeros => numbers::count_trailing_zeros(
            w,
            n,
            p,
            types_of(Builtin::CountTrailingZeros),
            x,
        ),
        Builtin::Min => order::min(w, n, p, types_of(Builtin::Min), x),
        Builtin::Max => order::max(w, n, p, types_of(Builtin::Max), x),
        Builtin::Clamp => order::clamp(w, n, p, types_of(Builtin::Clamp), x),
        Builtin::Saturate => order::saturate(w, n, p, types_of(Builtin::Saturate), x),
        Builtin::Step => order::step(w, n, p, types_of(Builtin::Step), x),
        Builtin::Cross => vectors::cross(w, n, p, types_of(Builtin::Cross), x),
        Builtin::Dot => vectors::dot(w, n, p, types_of(Builtin::Dot), x),
        Builtin::Transpose => given(one_value(w, n, p, types_of(Builtin::Transpose)), p, x),
        Builtin::Frexp => powers::frexp(w, n, p, types_of(Builtin::Frexp), x),
        Builtin::Ldexp => powers::ldexp(w, n, p, types_of(Builtin::Ldexp), x),
        Builtin::Bitcast => bitcast::bitcast(w, n, p, types_of(Builtin::Bitcast), x),
        Builtin::Pack4x8snorm => pack::pack8(
            reading,
            engine,
            w,
            n,
            p,
            types_of(Builtin::Pack4x8snorm),
            Coding8::Snorm,
            x,
        ),
        Builtin::Pack4x8unorm => pack::pack8(
            reading,
            engine,
            w,
            n,
            p,
            types_of(Builtin::Pack4x8unorm),
            Coding8::Unorm,
            x,
        ),
        Builtin::Pack4xI8 => pack::pack8(
            reading,
            engine,
            w,
            n,
            p,
            types_of(Builtin::Pack4xI8),
            Coding8::Signed,
            x,
        ),
        Builtin::Pack4xI8Clamp => pack::pack_clamped(
            reading,
            w,
            n,
            p,
            types_of(Builtin::Pack4xI8Clamp),
            x,
        ),
        Builtin::Pack4xU8 => pack::pack8(
            reading,
            engine,
            w,
            n,
            p,
            types_of(Builtin::Pack4xU8),
            Coding8::Unsigned,
            x,
        ),
        Builtin::Pack4xU8Clamp => pack::pack8(
            reading,
            engine,
            w,
            n,
            p,
            types_of(Builtin::Pack4xU8Clamp),
            Coding8::ClampedUnsigned,
            x,
        ),
        Builtin::Pack2x16snorm => pack::pack16(
            reading,
            w,
            n,
            p,
            types_of(Builtin::Pack2x16snorm),
            Coding16::Snorm,
            x,
        ),
        Builtin::Pack2x16unorm => pack::pack16(
            reading,
            w,
            n,
            p,
            types_of(Builtin::Pack2x16unorm),
            Coding16::Unorm,
            x,
        ),
        Builtin::Pack2x16float => pack::pack16(
            reading,
            w,
            n,
            p,
            types_of(Builtin::Pack2x16float),
            Coding16::Float,
            x,
        ),
        Builtin::Unpack4x8snorm => pack::unpack8(
            engine,
            w,
            n,
            p,
            types_of(Builtin::Unpack4x8snorm),
            Coding8::Snorm,
            VEC4_F32,
            x,
        ),
        Builtin::Unpack4x8unorm => pack::unpack8(
            engine,
            w,
            n,
            p,
            types_of(Builtin::Unpack4x8unorm),
            Coding8::Unorm,
            VEC4_F32,
            x,
        ),
        Builtin::Unpack4xI8 => pack::unpack8(
            engine,
            w,
            n,
            p,
            types_of(Builtin::Unpack4xI8),
            Coding8::Signed,
            VEC4_I32,
            x,
        ),
        Builtin::Unpack4xU8 => pack::unpack8(
            engine,
            w,
            n,
            p,
            types_of(Builtin::Unpack4xU8),
            Coding8::Unsigned,
            VEC4_U32,
            x,
        ),
        Builtin::Unpack2x16snorm => pack::unpack16(
            w,
            n,
            p,
            types_of(Builtin::Unpack2x16snorm),
            Coding16::Snorm,
            x,
        ),
        Builtin::Unpack2x16unorm => pack::unpack16(
            w,
            n,
            p,
            types_of(Builtin::Unpack2x16unorm),
            Coding16::Unorm,
            x,
        ),
        Builtin::Unpack2x16float => pack::unpack16(
            w,
            n,
            p,
            types_of(Builtin::Unpack2x16float),
            Coding16::Float,
            x,
        ),
        Builtin::Floor => wholes::whole(w, n, p, types_of(Builtin::Floor), Way::Floor, x),
        Builtin::Ceil => wholes::whole(w, n, p, types_of(Builtin::Ceil), Way::Ceil, x),
        Builtin::Trunc => wholes::whole(w, n, p, types_of(Builtin::Trunc), Way::Trunc, x),
        Builtin::Round => wholes::whole(w, n, p, types_of(Builtin::Round), Way::Round, x),
        Builtin::Fract => wholes::fract(w, n, p, types_of(Builtin::Fract), x),
        Builtin::Unknown => given(false, p, x),
    }
}
