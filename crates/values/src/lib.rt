// The value record: a type, each of whose values is a type that is taken or none, beside 16 lanes of bits.
#![tactic(auto)]

mod parts;

ghost use Rattle.std.specs.Prelude.{◌≡◌, cond, ◌*◌, ◌≤◌, ltb};
ghost use Rattle.values.specs.Value.{size_of, of_width, scalar_of, lane_count, is_type, shaped, place, kind_at, same_kind, empty_value};
ghost use Rattle.values.specs.Program.{low};

#[derive(Clone, Copy, PartialEq, Eq)]
pub enum Scalar {
    Boolean,
    I32,
    U32,
    F32,
    F16,
}

#[derive(Clone, Copy, PartialEq, Eq)]
pub enum Width {
    Single,
    Half,
}

#[derive(Clone, Copy, PartialEq, Eq)]
pub enum Size {
    Two,
    Three,
    Four,
}

// Empty is no type: it is the empty value's. No Option: `place`, `kind_at` and `empty_value` of specs/Value, on which all theorems rest, have it as a kind.
#[derive(Clone, Copy, PartialEq, Eq)]
pub enum Kind {
    Empty,
    One(Scalar),
    Vec(Size, Scalar),
    Mat(Size, Size, Width),
}

#[derive(Clone, Copy)]
pub struct Value {
    pub kind: Kind,
    pub lanes: [u64; 16],
}

// ---- types

fn size_of(s: Size) -> usize
    ensures { (result ≡ size_of s) × (result ≤ 4) }
{
    match s {
        Size::Two => 2,
        Size::Three => 3,
        Size::Four => 4,
    }
}

fn of_width(w: Width) -> Scalar
    ensures { result ≡ of_width w }
{
    match w {
        Width::Single => Scalar::F32,
        Width::Half => Scalar::F16,
    }
}

pub fn scalar_of(k: Kind) -> Scalar
    ensures { result ≡ scalar_of k }
{
    match k {
        Kind::Empty => Scalar::Boolean,
        Kind::One(s) | Kind::Vec(_, s) => s,
        Kind::Mat(_, _, w) => of_width(w),
    }
}

fn product(c: Size, r: Size) -> usize
    ensures { (result ≡ size_of c * size_of r) × (result ≤ 16) }
{
    size_of(c) * size_of(r)
}

// How many lanes the type has.
pub fn lane_count(k: Kind) -> usize
    ensures { (result ≡ lane_count k) × (result ≤ 16) }
{
    match k {
        Kind::Empty => 0,
        Kind::One(_) => 1,
        Kind::Vec(n, _) => size_of(n),
        Kind::Mat(c, r, _) => product(c, r),
    }
}

pub fn is_type(k: Kind) -> bool
    ensures { result ≡ is_type k }
{
    !matches!(k, Kind::Empty)
}

// The type of that shape with another scalar.
pub fn shaped_as(t: Scalar, k: Kind) -> Kind
    ensures { result ≡ shaped t k }
{
    match k {
        Kind::One(_) => Kind::One(t),
        Kind::Vec(n, _) => Kind::Vec(n, t),
        Kind::Empty | Kind::Mat(_, _, _) => Kind::Empty,
    }
}

// A type's place in the list of them all.
pub fn place_of(k: Kind) -> u64
    ensures { result ≡ place k }
{
    match k {
        Kind::Empty => 0,
        Kind::One(s) => parts::one_place(s),
        Kind::Vec(n, s) => parts::vec_place(n, s),
        Kind::Mat(c, r, w) => parts::mat_place(c, r, w),
    }
}

// Whether two types are one: == is whether their places are.
pub fn same_kind(k: Kind, l: Kind) -> bool
    ensures { result ≡ same_kind k l }
{
    k == l
}

// The type of a place.
pub fn kind_at(n: u64) -> Kind
    ensures { result ≡ kind_at n }
{
    match n {
        0 => Kind::Empty,
        1..=5 => parts::one_at(n - 1),
        6..=20 => parts::vec_at(n - 6),
        21..=38 => parts::mat_at(n - 21),
        _ => Kind::Empty,
    }
}

#[tactic(auto, unfolding(crate::specs::Value::empty_value))]
pub fn empty() -> Value
    ensures { result ≡ empty_value }
{
    Value {
        kind: Kind::Empty,
        lanes: [0; 16],
    }
}

// ---- the lanes of a scalar or a vector

pub fn cut_lane(x: u64) -> u32
    ensures { result ≡ low x }
{
    (x % 0x1_0000_0000) as u32
}

pub fn kept_lane(i: usize, n: usize, x: u32) -> u64
    ensures { result ≡ cond (ltb i n) x 0 }
{
    if i < n { x as u64 } else { 0 }
}
