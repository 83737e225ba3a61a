// The type that a text starts with, by its bytes, and the type that a text spells.
#![tactic(auto)]

ghost use Rattle.std.specs.Prelude.{◌≡◌, ◌+◌, ◌≤◌, ◌<◌, get_or};
ghost use Rattle.values.specs.Value.{place};
ghost use Rattle.spelling.specs.Types.{kind_of};
ghost use Rattle.typenames.specs.Program.{first_bytes, scalar_by, scalar_width, size_by, vector_from, matrix_from, type_from};

use choosing::choose;

// The byte at i, 0 past the end.
pub fn byte_at(t: &[u8], i: usize) -> u8
    ensures { result ≡ get_or t.now i 0 }
{
    t.get(i).copied().unwrap_or(0)
}

// A text's first eleven bytes, 0 past its end: no type's spelling is longer.
fn short_bytes(t: &[u8]) -> [u8; 11]
    ensures { result ≡ first_bytes t.now }
{
    // Written out: of `std::array::from_fn` over eleven places the proof did not close.
    [
        byte_at(t, 0),
        byte_at(t, 1),
        byte_at(t, 2),
        byte_at(t, 3),
        byte_at(t, 4),
        byte_at(t, 5),
        byte_at(t, 6),
        byte_at(t, 7),
        byte_at(t, 8),
        byte_at(t, 9),
        byte_at(t, 10),
    ]
}

// The length is asked for once where the text is long enough.
fn first_bytes(t: &[u8]) -> [u8; 11]
    ensures { result ≡ first_bytes t.now }
{
    if t.len() < 11 {
        return short_bytes(&t[0..]);
    }
    [
        t[0], t[1], t[2], t[3], t[4], t[5], t[6], t[7], t[8], t[9], t[10],
    ]
}

// The place of the scalar that four bytes spell, or the first three, 0 where they spell none.
fn scalar_by(x: u8, y: u8, z: u8, w: u8) -> u64
    ensures { (result ≡ scalar_by x y z w) × (result ≤ 5) }
{
    let by32 = (y == b'3') & (z == b'2');
    let by16 = (y == b'1') & (z == b'6');
    let truth = (x == b'b') & ((y == b'o') & ((z == b'o') & (w == b'l')));
    let half = choose((x == b'f') & by16, 5, 0);
    let single = choose((x == b'f') & by32, 4, half);
    let unsigned = choose((x == b'u') & by32, 3, single);
    choose(truth, 1, choose((x == b'i') & by32, 2, unsigned))
}

// A size less 1 of the byte that spells it, 0 where it spells none.
fn size_by(x: u8) -> u64
    ensures { (result ≡ size_by x) × (result ≤ 3) }
{
    choose(x == b'2', 1, choose(x == b'3', 2, choose(x == b'4', 3, 0)))
}

// The byte behind the scalar at p, which stands from the fifth on.
fn after_scalar(bytes: [u8; 11], p: u64) -> u8
    ensures { result ≡ get_or bytes (scalar_width p + 5) 0 }
{
    if p == 1 { bytes[9] } else { bytes[8] }
}

// The place of the vector that a text of these bytes spells after the first, 0 where it spells none.
fn vector_from(bytes: [u8; 11]) -> u64
    ensures { (result ≡ vector_from bytes) × (result < 39) }
{
    let n = size_by(bytes[3]);
    let p = scalar_by(bytes[5], bytes[6], bytes[7], bytes[8]);
    let vec = (bytes[1] == b'e') & (bytes[2] == b'c') & (bytes[4] == b'<');
    let spelled = vec & (n != 0) & (p != 0) & (after_scalar(bytes, p) == b'>');
    choose(spelled, 5 * n + p, 0)
}

fn matrix_from(bytes: [u8; 11]) -> u64
    ensures { (result ≡ matrix_from bytes) × (result < 39) }
{
    let c = size_by(bytes[3]);
    let r = size_by(bytes[5]);
    let p = scalar_by(bytes[7], bytes[8], bytes[9], bytes[10]);
    let mat = (bytes[1] == b'a') & (bytes[2] == b't') & (bytes[4] == b'x') & (bytes[6] == b'<');
    let spelled = mat & (c != 0) & (r != 0) & (3 < p) & (bytes[10] == b'>');
    choose(spelled, 17 + choose(p == 5, 9, 0) + 3 * c + r, 0)
}

// The place of the type whose spelling starts with these bytes, 0 where there is none.
fn type_by(bytes: [u8; 11]) -> u64
    ensures { (result ≡ type_from bytes) × (result < 39) }
{
    let x = bytes[0];
    if x == b'v' {
        return vector_from(bytes);
    }
    if x == b'm' {
        return matrix_from(bytes);
    }
    scalar_by(x, bytes[1], bytes[2], bytes[3])
}

// The place of the type whose spelling t starts with, 0 where there is none.
pub fn type_from(t: &[u8]) -> u64
    ensures { (result ≡ type_from t.now) × (result < 39) }
{
    type_by(first_bytes(t))
}

// The place of the type that s spells, 0 where it spells none.
pub fn type_of(s: &[u8]) -> u64
    ensures { (result ≡ place (kind_of s.now)) × (result < 39) }
{
    let p = type_from(s);
    if spelling::type_len(p) == s.len() {
        p
    } else {
        0
    }
}
