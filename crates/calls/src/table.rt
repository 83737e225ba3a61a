// 01's table: the shape of each builtin's row, and the types that it takes as a set.
ghost use Rattle.std.specs.Prelude.{◌≡◌, ◌*◌, ◌/◌, ◌≤◌, ◌<◌};
ghost use Rattle.values.specs.Value.{lane_bits, kind_at};
ghost use Rattle.calls.specs.Refuse.{byte_size};
ghost use Rattle.calls.specs.Program.{entry_of};

use crate::Builtin;
use values::Scalar;

// The shapes of a row. One set of types serves for a row: those of each value, but of Selecting those of the condition, of Scaling those of the first value.
#[derive(Clone, Copy)]
pub enum Shape {
    Unlisted,
    OneValue,
    TwoAlike,
    ThreeAlike,
    Selecting,
    Scaling,
    Casting,
}

// A row as the program has it.
#[derive(Clone, Copy)]
pub struct Entry {
    pub shape: Shape,
    pub set: u64,
}

// ---- sets of types, a bit for each place

const BOOLEANS: u64 = 0x1_0842;

const NUMBERS: u64 = 0x1e_f7bc;

const INTEGERS: u64 = 0x6_318c;

const ORDERED: u64 = 0xe_739c;

const FLOATS: u64 = 0x18_c630;

const SINGLES: u64 = 0x8_4210;

pub const I32S: u64 = 0x2_1084;

const VECTORS: u64 = 0xe_7380;

const MATRICES: u64 = 0x7f_ffe0_0000;

const VEC3_F32: u64 = 0x4000;

const VEC4_F32: u64 = 0x8_0000;

const VEC4_I32: u64 = 0x2_0000;

const VEC4_U32: u64 = 0x4_0000;

const VEC2_F32: u64 = 0x200;

const U32: u64 = 0x8;

// ---- the table

#[tactic(auto, unfolding(places::specs::Program::set_of))]
pub fn entry_of(b: Builtin) -> Entry
    ensures { result ≡ entry_of b }
{
    match b {
        Builtin::All | Builtin::Any => Entry {
            shape: Shape::OneValue,
            set: BOOLEANS,
        },
        Builtin::Select => Entry {
            shape: Shape::Selecting,
            set: BOOLEANS,
        },
        Builtin::Abs | Builtin::Sign => Entry {
            shape: Shape::OneValue,
            set: NUMBERS,
        },
        Builtin::CountLeadingZeros | Builtin::CountOneBits | Builtin::CountTrailingZeros => Entry {
            shape: Shape::OneValue,
            set: INTEGERS,
        },
        Builtin::Min | Builtin::Max => Entry {
            shape: Shape::TwoAlike,
            set: ORDERED,
        },
        Builtin::Clamp => Entry {
            shape: Shape::ThreeAlike,
            set: ORDERED,
        },
        Builtin::Saturate => Entry {
            shape: Shape::OneValue,
            set: SINGLES,
        },
        Builtin::Step => Entry {
            shape: Shape::TwoAlike,
            set: FLOATS,
        },
        Builtin::Cross => Entry {
            shape: Shape::TwoAlike,
            set: VEC3_F32,
        },
        Builtin::Dot => Entry {
            shape: Shape::TwoAlike,
            set: VECTORS,
        },
        Builtin::Transpose => Entry {
            shape: Shape::OneValue,
            set: MATRICES,
        },
        Builtin::Frexp
        | Builtin::Floor
        | Builtin::Ceil
        | Builtin::Trunc
        | Builtin::Round
        | Builtin::Fract => Entry {
            shape: Shape::OneValue,
            set: FLOATS,
        },
        Builtin::Ldexp => Entry {
            shape: Shape::Scaling,
            set: SINGLES,
        },
        Builtin::Bitcast => Entry {
            shape: Shape::Casting,
            set: NUMBERS,
        },
        Builtin::Pack4x8snorm | Builtin::Pack4x8unorm => Entry {
            shape: Shape::OneValue,
            set: VEC4_F32,
        },
        Builtin::Pack4xI8 | Builtin::Pack4xI8Clamp => Entry {
            shape: Shape::OneValue,
            set: VEC4_I32,
        },
        Builtin::Pack4xU8 | Builtin::Pack4xU8Clamp => Entry {
            shape: Shape::OneValue,
            set: VEC4_U32,
        },
        Builtin::Pack2x16snorm | Builtin::Pack2x16unorm | Builtin::Pack2x16float => Entry {
            shape: Shape::OneValue,
            set: VEC2_F32,
        },
        Builtin::Unpack4x8snorm
        | Builtin::Unpack4x8unorm
        | Builtin::Unpack4xI8
        | Builtin::Unpack4xU8
        | Builtin::Unpack2x16snorm
        | Builtin::Unpack2x16unorm
        | Builtin::Unpack2x16float => Entry {
            shape: Shape::OneValue,
            set: U32,
        },
        Builtin::Unknown => Entry {
            shape: Shape::Unlisted,
            set: 0,
        },
    }
}

// ---- sizes

fn bytes_of(n: usize, s: Scalar) -> usize
    requires { n ≤ 16 }
    ensures { result ≡ n * (lane_bits s / 8) }
{
    match s {
        Scalar::Boolean => 0,
        Scalar::I32 | Scalar::U32 | Scalar::F32 => n * 4,
        Scalar::F16 => n * 2,
    }
}

// How many bytes a value of the type at p has.
pub fn bytes_at(p: u64) -> usize
    requires { p < 39 }
    ensures { result ≡ byte_size (kind_at p) }
{
    bytes_of(places::count_at(p), places::scalar_at(p))
}
