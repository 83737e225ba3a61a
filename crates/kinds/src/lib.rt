// How two answer lines differ.
#![tactic(auto)]

ghost use Rattle.std.specs.Prelude.{◌≡◌, map, ◌<◌, ◌≤◌, take};
ghost use Rattle.buffers.specs.Text.{same_bytes};
ghost use Rattle.kinds.specs.Kinds.{kind_number, normal_float, normal_lane, same_types, same_lanes, same_answers, answer_kind, line_kind};

use listings::Answered;
use values::{Scalar, Value};

// The kind of a difference, the first that applies; Alike is none.
#[derive(Clone, Copy)]
pub enum Difference {
    Alike = 0,
    Missing = 1,
    Refusal = 2,
    OtherType = 3,
    OtherValue = 4,
    NanBits = 5,
    ZeroSign = 6,
}

// Its number, 0 for none.
pub fn kind_number(d: Difference) -> u8
    ensures { (result ≡ kind_number d) × (result ≤ 6) }
{
    d as u8
}

// ---- lanes

// A float's pattern, where zeros of either sign are one and, if `nans`, all NaNs are one. The sign weighs h, and the infinity's pattern is
// `infinity`.
fn normal_float(nans: bool, h: u64, infinity: u64, x: u64) -> u64
    requires { infinity < h }
    ensures { result ≡ normal_float nans h infinity x }
{
    let m = x % h;
    if nans & (infinity < m) {
        return infinity + 1;
    }
    if m == 0 { 0 } else { x }
}

#[tactic(auto, unfolding(crate::specs::Kinds::normal_lane))]
fn normal_lane(nans: bool, s: Scalar, x: u64) -> u64
    ensures { result ≡ normal_lane nans s x }
{
    match s {
        Scalar::Boolean | Scalar::I32 | Scalar::U32 => x,
        Scalar::F32 => normal_float(nans, 0x8000_0000, 0x7f80_0000, x),
        Scalar::F16 => normal_float(nans, 0x8000, 0x7c00, x),
    }
}

// Whether the first n lanes are the same once such lanes count as one.
#[tactic(auto, unfolding(buffers::specs::Text::same_bytes))]
fn same_lanes(nans: bool, s: Scalar, n: usize, a: [u64; 16], b: [u64; 16]) -> bool
    requires { n ≤ 16 }
    ensures { result ≡ same_bytes (map (normal_lane nans s) (take n a)) (map (normal_lane nans s) (take n b)) }
{
    for (x, y) in a[..n].iter().zip(&b[..n]) {
        if normal_lane(nans, s, *x) != normal_lane(nans, s, *y) {
            return false;
        }
    }
    true
}

// Two values of one type.
#[tactic(auto, unfolding(crate::specs::Kinds::same_lanes))]
fn same_value(nans: bool, v: Value, w: Value) -> bool
    ensures { result ≡ same_lanes nans v w }
{
    same_lanes(
        nans,
        values::scalar_of(v.kind),
        values::lane_count(v.kind),
        v.lanes,
        w.lanes,
    )
}

// ---- lines

fn same_types(a: Answered, b: Answered) -> bool
    ensures { result ≡ same_types a b }
{
    let v = a.first;
    let w = b.first;
    let x = a.second;
    let y = b.second;
    let k = v.kind;
    let l = w.kind;
    let m = x.kind;
    let n = y.kind;
    (k == l) & (m == n)
}

// Of pairs both values count.
#[tactic(auto, unfolding(crate::specs::Kinds::same_answers))]
fn same_answers(nans: bool, a: Answered, b: Answered) -> bool
    ensures { result ≡ same_answers nans a b }
{
    same_value(nans, a.first, b.first) && same_value(nans, a.second, b.second)
}

// Two lines that are there and are not the same to the byte.
#[tactic(auto, unfolding(crate::specs::Kinds::answer_kind))]
fn answer_kind(a: Answered, b: Answered) -> Difference
    ensures { result ≡ answer_kind a b }
{
    if a.refused | b.refused {
        return Difference::Refusal;
    }
    if !same_types(a, b) {
        return Difference::OtherType;
    }
    if !same_answers(true, a, b) {
        return Difference::OtherValue;
    }
    if !same_answers(false, a, b) {
        return Difference::NanBits;
    }
    Difference::ZeroSign
}

// Two lines that are there.
#[tactic(auto, unfolding(crate::specs::Kinds::line_kind))]
pub fn line_kind(left: &[u8], right: &[u8]) -> Difference
    ensures { result ≡ line_kind left.now right.now }
{
    if buffers::same(left, right) {
        return Difference::Alike;
    }
    answer_kind(listings::read_answer(left), listings::read_answer(right))
}
