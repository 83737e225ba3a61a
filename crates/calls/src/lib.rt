// A call, and 01's table of what its builtin takes.
#![tactic(auto)]

pub mod table;

ghost use Rattle.std.specs.Prelude.{[], ◌∷◌, ◌≡◌, ◌≤◌, ◌<◌, length};
ghost use Rattle.buffers.specs.Memory.{put};
ghost use Rattle.calls.specs.Table.{takes, builtin_at};
ghost use Rattle.calls.specs.Program.{types_of};

use values::{Kind, Value};

// In the order of 01's table, by their numbers in it; Unknown is a name that is not in it.
#[derive(Clone, Copy)]
pub enum Builtin {
    All = 1,
    Any,
    Select,
    Abs,
    Sign,
    CountLeadingZeros,
    CountOneBits,
    CountTrailingZeros,
    Min,
    Max,
    Clamp,
    Saturate,
    Step,
    Cross,
    Dot,
    Transpose,
    Frexp,
    Ldexp,
    Bitcast,
    Pack4x8snorm,
    Pack4x8unorm,
    Pack4xI8,
    Pack4xI8Clamp,
    Pack4xU8,
    Pack4xU8Clamp,
    Pack2x16snorm,
    Pack2x16unorm,
    Pack2x16float,
    Unpack4x8snorm,
    Unpack4x8unorm,
    Unpack4xI8,
    Unpack4xU8,
    Unpack2x16snorm,
    Unpack2x16unorm,
    Unpack2x16float,
    Floor,
    Ceil,
    Trunc,
    Round,
    Fract,
    Unknown = 0,
}

// The builtins by their numbers: their places in 01's table from 1.
const BUILTINS: [Builtin; 41] = [
    Builtin::Unknown,
    Builtin::All,
    Builtin::Any,
    Builtin::Select,
    Builtin::Abs,
    Builtin::Sign,
    Builtin::CountLeadingZeros,
    Builtin::CountOneBits,
    Builtin::CountTrailingZeros,
    Builtin::Min,
    Builtin::Max,
    Builtin::Clamp,
    Builtin::Saturate,
    Builtin::Step,
    Builtin::Cross,
    Builtin::Dot,
    Builtin::Transpose,
    Builtin::Frexp,
    Builtin::Ldexp,
    Builtin::Bitcast,
    Builtin::Pack4x8snorm,
    Builtin::Pack4x8unorm,
    Builtin::Pack4xI8,
    Builtin::Pack4xI8Clamp,
    Builtin::Pack4xU8,
    Builtin::Pack4xU8Clamp,
    Builtin::Pack2x16snorm,
    Builtin::Pack2x16unorm,
    Builtin::Pack2x16float,
    Builtin::Unpack4x8snorm,
    Builtin::Unpack4x8unorm,
    Builtin::Unpack4xI8,
    Builtin::Unpack4xU8,
    Builtin::Unpack2x16snorm,
    Builtin::Unpack2x16unorm,
    Builtin::Unpack2x16float,
    Builtin::Floor,
    Builtin::Ceil,
    Builtin::Trunc,
    Builtin::Round,
    Builtin::Fract,
];

// The builtin of a number, Unknown where no builtin has it. No TryFrom: `builtin_at` of specs/Table answers Unknown for such a number.
pub fn builtin_at(n: u64) -> Builtin
    ensures { result ≡ builtin_at n }
{
    if n < 41 {
        BUILTINS[n as usize]
    } else {
        Builtin::Unknown
    }
}

// A builtin's number.
#[tactic(auto, unfolding(crate::specs::Table::builtin_at))]
pub fn number_of(b: Builtin) -> u64
    ensures { (builtin_at result ≡ b) × (result < 41) }
{
    b as u64
}

// `target` is bitcast's type field, and `count` counts it. Slots past the count are not looked at.
#[derive(Clone, Copy)]
pub struct Call {
    pub builtin: Builtin,
    pub count: usize,
    pub target: Kind,
    pub a: Value,
    pub b: Value,
    pub c: Value,
}

// The types of a builtin's row, as a set. Of a builtin that is written out it is a constant.
pub fn types_of(b: Builtin) -> u64
    ensures { result ≡ types_of (takes b) }
{
    table::entry_of(b).set
}

// A call's first three words.
pub fn put_head(w: &mut [u64], builtin: u64, count: u64, target: u64)
    requires { 3 ≤ length w.old }
    ensures { w.new ≡ put w.old 0 (builtin ∷ count ∷ target ∷ []) }
{
    w[0] = builtin;
    w[1] = count;
    w[2] = target;
}
