// The lanes of packed words. A format is the width of its lanes, 8 or 16, and a coding: how a lane becomes a code of that width, and a code a lane.
#![tactic(auto)]

ghost use Rattle.std.specs.Prelude.{◌≡◌, [], ◌∷◌, ◌++◌, map, ◌%◌, ◌^◌, ◌<◌, take};
ghost use Rattle.half.specs.Convert.{half_of};
ghost use Rattle.values.specs.Program.{four};
ghost use Rattle.numeric.specs.Parts.{parts, joined};
ghost use Rattle.losses.specs.Losses.{largest};
ghost use Rattle.exact.specs.Exact.{norm_code};
ghost use Rattle.packing.specs.Lanes.{extended, filling_from, clamped_i8, code_u8};
ghost use Rattle.packing.specs.Program.{code8_of, lane8_of, code16_of, lost16_of, loss16_of, lane16_of, coded, fill_four, clamp_four};

use engines::Engine;
use losses::Loss;
use norm::Format;
use readings::Reading;

// The clamped ones are the lanes of pack4xI8Clamp, where its lanes are kept apart, and of pack4xU8Clamp.
#[derive(Clone, Copy)]
pub enum Coding8 {
    Snorm,
    Unorm,
    Signed,
    Unsigned,
    ClampedSigned,
    ClampedUnsigned,
}

#[derive(Clone, Copy)]
pub enum Coding16 {
    Snorm,
    Unorm,
    Float,
}

// ---- codes

fn low8(x: u32) -> u8
    ensures { result ≡ x % 2 ^ 8 }
{
    (x % 0x100) as u8
}

fn low16(x: u32) -> u16
    ensures { result ≡ x % 2 ^ 16 }
{
    (x % 0x1_0000) as u16
}

// Inlined, so that the format is a constant in it.
#[inline(always)]
fn norm_code(reading: Reading, f: Format, x: u32) -> u32
    ensures { (result ≡ norm_code reading f.signed f.w x) × (result < 2 ^ f.w) }
{
    match reading {
        Reading::Crate => f.pack(x),
        Reading::Text => exact::pack(f, x),
    }
}

// An i32 lane, by its bits: from the half of them up it is below 0.
fn clamp_i8(x: u32) -> u8
    ensures { result ≡ clamped_i8 x }
{
    if x < 0x8000_0000 {
        low8(x.min(127))
    } else if x < 0xffff_ff80 {
        0x80
    } else {
        low8(x)
    }
}

fn clamp_u8(reading: Reading, x: u32) -> u8
    ensures { result ≡ code_u8 reading x }
{
    match reading {
        Reading::Crate => low8(x),
        Reading::Text => low8(x.min(255)),
    }
}

fn code8(reading: Reading, t: Coding8, x: u32) -> u8
    ensures { result ≡ code8_of reading t x }
{
    match t {
        Coding8::Snorm => low8(norm_code(reading, Format::SNORM8, x)),
        Coding8::Unorm => low8(norm_code(reading, Format::UNORM8, x)),
        Coding8::Signed | Coding8::Unsigned => low8(x),
        Coding8::ClampedSigned => clamp_i8(x),
        Coding8::ClampedUnsigned => clamp_u8(reading, x),
    }
}

#[derive(Clone, Copy)]
pub struct Coded16 {
    pub code: u16,
    pub loss: Loss,
}

// A norm code tells no loss.
#[inline(always)]
fn coded_norm(reading: Reading, f: Format, x: u32) -> Coded16
    requires { f.w ≡ 16 }
    ensures { result ≡ coded (norm_code reading f.signed 16 x) Loss.Exact }
{
    Coded16 {
        code: low16(norm_code(reading, f, x)),
        loss: Loss::Exact,
    }
}

fn coded_half(x: u32) -> Coded16
    ensures { result ≡ coded (half_of x) (lost16_of Coding16.Float x) }
{
    let c = losses::f32_to_f16_told(x);
    Coded16 {
        code: c.half,
        loss: c.loss,
    }
}

fn code16(reading: Reading, t: Coding16, x: u32) -> Coded16
    ensures { result ≡ coded (code16_of reading t x) (lost16_of t x) }
{
    match t {
        Coding16::Snorm => coded_norm(reading, Format::SNORM16, x),
        Coding16::Unorm => coded_norm(reading, Format::UNORM16, x),
        Coding16::Float => coded_half(x),
    }
}

// ---- lanes

fn extend(c: u8) -> u32
    ensures { result ≡ extended c }
{
    if c < 0x80 {
        c as u32
    } else {
        0xffff_ff00 + c as u32
    }
}

fn lane8(t: Coding8, c: u8) -> u32
    ensures { result ≡ lane8_of t c }
{
    match t {
        Coding8::Snorm => Format::SNORM8.unpack(c as u32),
        Coding8::Unorm => Format::UNORM8.unpack(c as u32),
        Coding8::Signed | Coding8::ClampedSigned => extend(c),
        Coding8::Unsigned | Coding8::ClampedUnsigned => c as u32,
    }
}

fn lane16(t: Coding16, c: u16) -> u32
    ensures { result ≡ lane16_of t c }
{
    match t {
        Coding16::Snorm => Format::SNORM16.unpack(c as u32),
        Coding16::Unorm => Format::UNORM16.unpack(c as u32),
        Coding16::Float => half::f16_to_f32(c),
    }
}

// ---- words

fn join16(a: u16, b: u16) -> u32
    ensures { result ≡ joined 16 (a ∷ b ∷ []) }
{
    a as u32 + 0x1_0000 * b as u32
}

fn word_by_arithmetic(reading: Reading, t: Coding8, x: [u32; 4]) -> u32
    ensures { result ≡ joined 8 (four (code8_of reading t) x) }
{
    u32::from_le_bytes(x.map(|lane| code8(reading, t, lane)))
}

// The norm lanes are packed by table in the crate's reading alone.
fn word_by_tables(reading: Reading, t: Coding8, x: [u32; 4]) -> u32
    ensures { result ≡ joined 8 (four (code8_of reading t) x) }
{
    match (reading, t) {
        (Reading::Crate, Coding8::Snorm) => u32::from_le_bytes(tables::codes(true, x)),
        (Reading::Crate, Coding8::Unorm) => u32::from_le_bytes(tables::codes(false, x)),
        _ => word_by_arithmetic(reading, t, x),
    }
}

pub fn word8(reading: Reading, engine: Engine, t: Coding8, x: [u32; 4]) -> u32
    ensures { result ≡ joined 8 (four (code8_of reading t) x) }
{
    match engine {
        Engine::Arithmetic => word_by_arithmetic(reading, t, x),
        Engine::Tables => word_by_tables(reading, t, x),
    }
}

// A word of two codes, and the larger of their losses' numbers.
#[derive(Clone, Copy)]
pub struct PackedWord {
    pub word: u32,
    pub loss: u8,
}

pub fn word16(reading: Reading, t: Coding16, x: [u32; 4]) -> PackedWord
    ensures { (result.word ≡ joined 16 (take 2 (four (code16_of reading t) x))) × (result.loss ≡ largest (take 2 (four (loss16_of t) x))) }
{
    let a = code16(reading, t, x[0]);
    let b = code16(reading, t, x[1]);
    PackedWord {
        word: join16(a.code, b.code),
        loss: u8::from(a.loss.max(b.loss)),
    }
}

fn codes_of(x: u32) -> [u8; 4]
    ensures { result ≡ parts 8 4 x }
{
    x.to_le_bytes()
}

fn lanes_by_arithmetic(t: Coding8, c: [u8; 4]) -> [u32; 4]
    ensures { result ≡ four (lane8_of t) c }
{
    c.map(|code| lane8(t, code))
}

fn lanes_by_tables(t: Coding8, c: [u8; 4]) -> [u32; 4]
    ensures { result ≡ four (lane8_of t) c }
{
    match t {
        Coding8::Snorm => tables::lanes(true, c),
        Coding8::Unorm => tables::lanes(false, c),
        _ => lanes_by_arithmetic(t, c),
    }
}

pub fn lanes8(engine: Engine, t: Coding8, x: u32) -> [u32; 4]
    ensures { result ≡ map (lane8_of t) (parts 8 4 x) }
{
    let c = codes_of(x);
    match engine {
        Engine::Arithmetic => lanes_by_arithmetic(t, c),
        Engine::Tables => lanes_by_tables(t, c),
    }
}

// Two lanes of the four.
pub fn lanes16(t: Coding16, x: u32) -> [u32; 4]
    ensures { result ≡ map (lane16_of t) (parts 16 2 x) ++ 0 ∷ 0 ∷ [] }
{
    [lane16(t, low16(x)), lane16(t, low16(x / 0x1_0000)), 0, 0]
}

// ---- pack4xI8Clamp

// The lane at its place, its sign in every place above.
fn fill_from(x: u32, i: u32) -> u32
    requires { i < 4 }
    ensures { result ≡ filling_from x i }
{
    extend(low8(x)) << (8 * i)
}

fn fill_word(x: [u32; 4]) -> u32
    ensures { result ≡ fill_four x }
{
    fill_from(x[0], 0) | fill_from(x[1], 1) | fill_from(x[2], 2) | fill_from(x[3], 3)
}

// In the text's reading the lanes are kept apart.
pub fn clamped_word(reading: Reading, x: [u32; 4]) -> u32
    ensures { result ≡ clamp_four reading x }
{
    match reading {
        Reading::Crate => fill_word(x),
        Reading::Text => word_by_arithmetic(reading, Coding8::ClampedSigned, x),
    }
}
