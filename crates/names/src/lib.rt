// The builtins' names, read.
#![tactic(auto)]

ghost use Rattle.std.specs.Prelude.{◌≡◌, ◌<◌, length};
ghost use Rattle.calls.specs.Table.{builtin_at};
ghost use Rattle.buffers.specs.Text.{same_bytes};
ghost use Rattle.names.specs.Names.{name_of, builtin_of};
ghost use Rattle.names.specs.Program.{start, byte_back, slot, place};

// The names of the builtins, one after another, and where each starts by the builtin's number; Unknown's, the first, is empty.
const TEXT: [u8; 345] =
    *b"allanyselectabssigncountLeadingZeroscountOneBitscountTrailingZerosminmaxclampsaturatestepcrossdottransposefrexpldexpbitcastpack4x8snormpack4x8unormpack4xI8pack4xI8Clamppack4xU8pack4xU8Clamppack2x16snormpack2x16unormpack2x16floatunpack4x8snormunpack4x8unormunpack4xI8unpack4xU8unpack2x16snormunpack2x16unormunpack2x16floatfloorceiltruncroundfract";

const STARTS: [u16; 42] = [
    0, 0, 3, 6, 12, 15, 19, 36, 48, 66, 69, 72, 77, 85, 89, 94, 97, 106, 111, 116, 123, 135, 147,
    155, 168, 176, 189, 202, 215, 228, 242, 256, 266, 276, 291, 306, 321, 326, 330, 335, 340, 345,
];

// At each slot the number of the one builtin whose name has it, and 0, Unknown's, where none has.
const PLACES: [u8; 128] =
    *b"\x02\x1d\0\x0a\0\x06\x07\x08\0\0\0\x09\0\0\0\x15\0\0\x12\x1e\0\x25\0\0\0\0\0\x0b\0\0\0\0\0\x0e\0\0\x1c\x0f\0\0\x23\0\x1a\0\0\0\x21\0\0\0\0\x10\0\x28\0\0\0\0\0\x13\x1b\x17\0\x16\x22\x24\0\x1f\x0c\0\0\0\0\0\x11\x18\0\0\0\x20\x27\x0d\0\x05\0\x03\0\0\0\0\0\0\0\0\0\0\0\x19\0\0\0\0\0\0\x26\0\0\0\0\0\0\0\0\0\0\0\x04\0\0\0\0\0\0\0\0\x14\x01\0";

// A slot that no name has.
const FREE: usize = 127;

fn start_of(i: usize) -> usize
    requires { i < 42 }
    ensures { result ≡ start i }
{
    usize::from(STARTS[i])
}

fn place_at(h: usize) -> usize
    requires { h < 128 }
    ensures { (result ≡ place h) × (result < 41) }
{
    usize::from(PLACES[h])
}

// The byte k places from the end, or the first.
fn byte_back(s: &[u8], k: usize) -> usize
    requires { (0 < k) × (0 < length s.now) }
    ensures { (result ≡ byte_back k s.now) × (result < 256) }
{
    usize::from(s[s.len().saturating_sub(k)])
}

// The slot of a name. The places and the factors were found by trial: with them no two names share a slot.
fn slot_of(s: &[u8]) -> usize
    ensures { (result ≡ slot s.now) × (result < 128) }
{
    let n = s.len();
    if n < 3 {
        return FREE;
    }
    (2 * (n % 64) + byte_back(s, 2) + 9 * byte_back(s, 5) + 3 * byte_back(s, 7)) % 128
}

// Whether s is the name of the builtin of a number.
fn named(i: usize, s: &[u8]) -> bool
    requires { i < 41 }
    ensures { result ≡ same_bytes (name_of (builtin_at i)) s.now }
{
    let start = start_of(i);
    let end = start_of(i + 1);
    let text = TEXT;
    buffers::same(&text[start..end], s)
}

// The number of the builtin of a name, Unknown's where there is none: only the one that has the name's slot can have the name.
pub fn number_of(s: &[u8]) -> u64
    ensures { builtin_at result ≡ builtin_of s.now }
{
    let i = place_at(slot_of(s));
    if named(i, s) { i as u64 } else { 0 }
}
