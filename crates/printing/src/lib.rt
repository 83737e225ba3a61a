// Bytes, decimal digits and a refusal's text, written into lent memory that has room for them.
#![tactic(auto)]

ghost use Rattle.std.specs.Prelude.{◌≡◌, [], ◌∷◌, ◌+◌, ◌<◌, ◌≤◌, length};
ghost use Rattle.buffers.specs.Memory.{put};
ghost use Rattle.printing.specs.Decimal.{digits, places, refused_text, place_text, refused_at};

// A byte at a place; answers the next place.
pub fn put_byte(out: &mut [u8], at: usize, b: u8) -> usize
    requires { at < length out.old }
    ensures { (result ≡ at + 1) × (out.new ≡ put out.old at (b ∷ [])) }
{
    out[at] = b;
    at + 1
}

fn digit_byte(d: usize) -> u8
    requires { d < 10 }
    ensures { result ≡ 48 + d }
{
    (48 + d) as u8
}

// The low n digits of v from `at` on; answers the next place.
pub fn put_digits(out: &mut [u8], at: usize, n: usize, v: usize) -> usize
    requires { at + n ≤ length out.old }
    ensures { (result ≡ at + n) × (out.new ≡ put out.old at (digits n v)) }
{
    let mut rest = v;
    for i in (0..n).rev() {
        out[at + i] = digit_byte(rest % 10);
        rest /= 10;
    }
    at + n
}

fn places_of(v: usize) -> usize
    ensures { result ≡ places v }
{
    if v < 10 {
        1
    } else if v < 100 {
        2
    } else {
        3
    }
}

// `refused`, tab, number at a place, nothing for 0; answers the next place.
pub fn put_refusal(out: &mut [u8], at: usize, refusal: u8) -> usize
    requires { at + length (refused_text refusal) ≤ length out.old }
    ensures { (result ≡ at + length (refused_text refusal)) × (out.new ≡ put out.old at (refused_text refusal)) }
{
    if refusal == 0 {
        return at;
    }
    let v = usize::from(refusal);
    let n = places_of(v);
    let e = buffers::put_bytes(out, at, b"refused\t");
    put_digits(out, e, n, v)
}

// Tab and the place of a fault in decimal digits, nothing for 0; answers the next place.
pub fn put_place(out: &mut [u8], at: usize, place: usize) -> usize
    requires { at + length (place_text place) ≤ length out.old }
    ensures { (result ≡ at + length (place_text place)) × (out.new ≡ put out.old at (place_text place)) }
{
    if place == 0 {
        return at;
    }
    let n = places_of(place);
    let e = put_byte(out, at, 9);
    put_digits(out, e, n, place)
}

// A refusal and its place, one after the other; answers the next place.
pub fn put_refused(out: &mut [u8], at: usize, refusal: u8, place: usize) -> usize
    requires { at + length (refused_at refusal place) ≤ length out.old }
    ensures { (result ≡ at + length (refused_at refusal place)) × (out.new ≡ put out.old at (refused_at refusal place)) }
{
    let e = put_refusal(out, at, refusal);
    put_place(out, e, place)
}
