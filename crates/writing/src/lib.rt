// Values written as text, from the words that they stand in; a type is its place.
#![tactic(auto)]

ghost use Rattle.std.specs.Prelude.{◌≡◌, cond, ◌+◌, ◌≤◌, ◌<◌, length};
ghost use Rattle.values.specs.Value.{place, kind_at};
ghost use Rattle.buffers.specs.Memory.{put, fits};
ghost use Rattle.words.specs.Words.{value_at};
ghost use Rattle.spelling.specs.Write.{text_of, text_length};
ghost use Rattle.writing.specs.Into.{written_as, text_in};

// How many bytes spell a value of the type at p.
pub fn text_len(p: u64) -> usize
    requires { p < 39 }
    ensures { (result ≡ text_length (kind_at p)) × (result ≤ 155) }
{
    let digits = spelling::digit_count(places::scalar_at(p));
    spelling::type_len(p) + places::count_at(p) * (digits + 1)
}

// The text of the value whose words stand at `from`, of the type at p; answers the next place.
fn put_text(out: &mut [u8], at: usize, p: u64, w: &[u64], from: usize) -> usize
    requires { (p ≡ place (value_at w.now from).kind) × (p < 39) × (from ≤ 37) × (at + length (text_of (value_at w.now from)) ≤ length out.old) }
    ensures { (result ≡ at + length (text_of (value_at w.now from))) × (out.new ≡ put out.old at (text_of (value_at w.now from))) }
{
    if p == 0 {
        return at;
    }
    let next = typetexts::put_type(out, at, p);
    let digits = spelling::digit_count(places::scalar_at(p));
    lanetexts::put_lanes(
        out,
        next,
        places::count_at(p),
        digits,
        &w[from + 1..from + 17],
    )
}

// The text of the value whose words stand at `from`, written from `at` on if there is room for it, and nothing if not; answers the next place.
pub fn put_value(out: &mut [u8], at: usize, w: &[u64], from: usize) -> usize
    requires { from ≤ 37 }
    ensures { (result ≡ cond (fits out.old at (text_of (value_at w.now from))) (at + length (text_of (value_at w.now from))) at)
        × (out.new ≡ cond (fits out.old at (text_of (value_at w.now from))) (put out.old at (text_of (value_at w.now from))) out.old) }
{
    let p = words::place_at(w, from);
    if buffers::room(out.len(), at, text_len(p)) {
        put_text(out, at, p, w, from)
    } else {
        at
    }
}

// ---- values into lent memory

// What writing a value gives: the refusal's number, 0 where it is written, and the length of its text.
#[derive(Clone, Copy)]
pub struct Written {
    pub refusal: u8,
    pub len: usize,
}

// Writes the text of the value whose words are lent, at the start of the lent memory; a refusal leaves the memory as it is.
pub fn write_into(value: &[u64], out: &mut [u8]) -> Written
    ensures { (result ≡ written_as (length out.old) (value_at value.now 0))
        × (out.new ≡ put out.old 0 (text_in (length out.old) (value_at value.now 0))) }
{
    if !words::formed_at(value, 0) {
        return Written { refusal: 3, len: 0 };
    }
    if out.len() < text_len(words::place_at(value, 0)) {
        return Written { refusal: 8, len: 0 };
    }
    let len = put_value(out, 0, value, 0);
    Written { refusal: 0, len }
}
