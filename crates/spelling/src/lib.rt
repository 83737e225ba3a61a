// How types and values are spelled: specs/Types, Hex, Read and Write say it, and proofs/ holds the laws. Here stand the answers of reading, and what both reading and writing ask.
#![tactic(auto)]

ghost use Rattle.std.specs.Prelude.{◌≡◌, cond, ◌<◌, ◌≤◌, length};
ghost use Rattle.values.specs.Value.{kind_at};
ghost use Rattle.spelling.specs.Types.{spelled};
ghost use Rattle.spelling.specs.Hex.{digit_count, digit_of, DigitTable};

use choosing::choose;
use values::{Scalar, Value};

// What is wrong with a spelling: nothing, the type or the colon, the count of lanes, a digit.
#[derive(Clone, Copy)]
pub enum Fault {
    Nothing,
    TypeSpelling,
    Lanes,
    Digit,
}

// What reading a value spelling gives: no fault and the value, or the fault, its place from 1 and the empty value.
#[derive(Clone, Copy)]
pub struct Reading {
    pub fault: Fault,
    pub place: usize,
    pub value: Value,
}

// How many bytes spell the type at p.
pub fn type_len(p: u64) -> usize
    requires { p < 39 }
    ensures { (result ≡ length (spelled (kind_at p))) × (result ≤ 11) }
{
    let boolean = (p + 4) % 5 == 0;
    let vector = choose(p < 21, choose(boolean, 10, 9), 11);
    choose(p == 0, 0, choose(p < 6, choose(boolean, 4, 3), vector))
}

// How many digits spell a lane.
pub fn digit_count(s: Scalar) -> usize
    ensures { (result ≡ digit_count s) × (result ≤ 8) }
{
    match s {
        Scalar::Boolean => 1,
        Scalar::I32 | Scalar::U32 | Scalar::F32 => 8,
        Scalar::F16 => 4,
    }
}

// The digit that each byte spells, 16 where it spells none.
const DIGITS: [u8; 256] = *b"\
    \x10\x10\x10\x10\x10\x10\x10\x10\x10\x10\x10\x10\x10\x10\x10\x10\
    \x10\x10\x10\x10\x10\x10\x10\x10\x10\x10\x10\x10\x10\x10\x10\x10\
    \x10\x10\x10\x10\x10\x10\x10\x10\x10\x10\x10\x10\x10\x10\x10\x10\
    \x00\x01\x02\x03\x04\x05\x06\x07\x08\x09\x10\x10\x10\x10\x10\x10\
    \x10\x0a\x0b\x0c\x0d\x0e\x0f\x10\x10\x10\x10\x10\x10\x10\x10\x10\
    \x10\x10\x10\x10\x10\x10\x10\x10\x10\x10\x10\x10\x10\x10\x10\x10\
    \x10\x10\x10\x10\x10\x10\x10\x10\x10\x10\x10\x10\x10\x10\x10\x10\
    \x10\x10\x10\x10\x10\x10\x10\x10\x10\x10\x10\x10\x10\x10\x10\x10\
    \x10\x10\x10\x10\x10\x10\x10\x10\x10\x10\x10\x10\x10\x10\x10\x10\
    \x10\x10\x10\x10\x10\x10\x10\x10\x10\x10\x10\x10\x10\x10\x10\x10\
    \x10\x10\x10\x10\x10\x10\x10\x10\x10\x10\x10\x10\x10\x10\x10\x10\
    \x10\x10\x10\x10\x10\x10\x10\x10\x10\x10\x10\x10\x10\x10\x10\x10\
    \x10\x10\x10\x10\x10\x10\x10\x10\x10\x10\x10\x10\x10\x10\x10\x10\
    \x10\x10\x10\x10\x10\x10\x10\x10\x10\x10\x10\x10\x10\x10\x10\x10\
    \x10\x10\x10\x10\x10\x10\x10\x10\x10\x10\x10\x10\x10\x10\x10\x10\
    \x10\x10\x10\x10\x10\x10\x10\x10\x10\x10\x10\x10\x10\x10\x10\x10";

// A table of the digit that each byte spells, to be made once before many bytes are looked up in it: each reading of a constant array copies it.
#[derive(Clone, Copy)]
pub struct Digits {
    pub of_bytes: [u8; 256],
    pub ghost right: { DigitTable of_bytes },
}

pub fn digit_table() -> Digits
    ensures { DigitTable result.of_bytes }
{
    Digits { of_bytes: DIGITS }
}

impl Digits {
    // The digit that a byte spells, 16 where it spells none.
    pub fn digit(&self, b: u8) -> u8
        ensures { (result ≡ digit_of b) × (result ≤ 16) }
    {
        self.of_bytes[b as usize]
    }
}
