// Lanes of the two 8-bit norm formats in the crate's reading, as norm has them, by tables: no float is added, multiplied or divided (Q-11).
#![tactic(auto)]

ghost use Rattle.std.specs.Prelude.{◌≡◌};
ghost use Rattle.half.specs.Format.{f32, is_nan, rank};
ghost use Rattle.values.specs.Program.{four};
ghost use Rattle.norm.specs.Norm.{packed_norm, unpacked_norm};
ghost use Rattle.tables.specs.Tables.{Lanes, Starts, Found};

use entries::{SNORM_LANES, SNORM_STARTS, UNORM_LANES, UNORM_STARTS};

mod entries;

// ---- unpacking

// what each code unpacks to
fn entries_of(signed: bool) -> &'static [u32; 256]
    ensures { Lanes signed result.now }
{
    if signed { &SNORM_LANES } else { &UNORM_LANES }
}

fn lane(signed: bool, c: u8) -> u32
    ensures { result ≡ unpacked_norm signed 8 c }
{
    entries_of(signed)[c as usize]
}

// Not inlined, nor `codes`: instructions/run looks whether a float operation is in them.
#[inline(never)]
pub fn lanes(signed: bool, c: [u8; 4]) -> [u32; 4]
    ensures { result ≡ four (unpacked_norm signed 8) c }
{
    c.map(|code| lane(signed, code))
}

// ---- packing

// where each code above the least begins
fn starts_of(signed: bool) -> &'static [u32]
    ensures { Starts signed result.now }
{
    if signed { &SNORM_STARTS } else { &UNORM_STARTS }
}

fn is_nan(x: u32) -> bool
    ensures { result ≡ is_nan f32 x }
{
    x % 0x8000_0000 > 0x7f80_0000
}

// a pattern's place in the numeric order
fn place(x: u32) -> u32
    ensures { result ≡ rank f32 x }
{
    if x >= 0x8000_0000 {
        0x8000_0000 - x % 0x8000_0000
    } else {
        0x8000_0000 + x % 0x8000_0000
    }
}

// How many of the starts v has reached, by halving: the one before `lo` is reached, and the one after the n that are left from there is not.
// By hand: the library's `partition_point` jumps at each test, and packed a word a fifth slower.
fn search(starts: &[u32], v: u32) -> usize
    ensures { Found starts.now v result }
{
    let mut lo: usize = 0;
    let mut n = starts.len();
    while n > 0 {
        let half = n / 2;
        let mid = lo + half;
        if starts[mid] <= v {
            lo = mid + 1;
            n = n - half - 1;
        } else {
            n = half;
        }
    }
    lo
}

fn code(signed: bool, x: u32) -> u8
    ensures { result ≡ packed_norm signed 8 x }
{
    if is_nan(x) {
        return 0;
    }
    let reached = search(starts_of(signed), place(x));
    if signed {
        ((reached + 129) % 256) as u8
    } else {
        reached as u8
    }
}

#[inline(never)]
pub fn codes(signed: bool, x: [u32; 4]) -> [u8; 4]
    ensures { result ≡ four (packed_norm signed 8) x }
{
    x.map(|lane| code(signed, lane))
}
