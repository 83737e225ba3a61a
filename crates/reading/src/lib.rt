// Values read from their spellings, straight into words.
#![tactic(auto)]

ghost use Rattle.std.specs.Prelude.{◌≡◌, ◌+◌, ◌≤◌, ◌<◌, length, take};
ghost use Rattle.buffers.specs.Text.{place_of};
ghost use Rattle.buffers.specs.Memory.{put};
ghost use Rattle.words.specs.Words.{value_at, words_of};
ghost use Rattle.spelling.specs.Read.{read_value};
ghost use Rattle.typenames.specs.Program.{type_from};
ghost use Rattle.reading.specs.Into.{read_in, words_in};
ghost use Rattle.reading.specs.Program.{ends};

use spelling::{Digits, Fault, Reading};

// ---- fields

// The type that t starts with and its first tab, each asked for by a slice of its own: a slice that is handed on as it stands is kept in memory, and read from there.
fn type_from(t: &[u8]) -> u64
    ensures { (result ≡ type_from t.now) × (result < 39) }
{
    typenames::type_from(&t[0..])
}

fn find_tab(t: &[u8]) -> usize
    ensures { (result ≡ place_of 9 t.now) × (result ≤ length t.now) }
{
    buffers::find(&t[0..], b'\t')
}

// Whether a field ends at e: there, or at a tab.
fn ends_at(t: &[u8], e: usize) -> bool
    ensures { result ≡ ends t.now e }
{
    if e < t.len() {
        t[e] == b'\t'
    } else {
        e == t.len()
    }
}

// The value that the first field of t spells, as words from `at` on, the empty value's where it spells none; answers the length of its text, 0 of none.
fn value_into(w: &mut [u64], at: usize, table: &Digits, t: &[u8]) -> usize
    requires { at + 17 ≤ length w.old }
    ensures { (0 < result → result ≡ place_of 9 t.now)
        × (w.new ≡ put w.old at (words_of (read_value (take (place_of 9 t.now) t.now)).value)) }
{
    words::clear(w, at);
    let p = type_from(t);
    let s = places::scalar_at(p);
    let n = places::count_at(p);
    let start = spelling::type_len(p);
    let len = start + n * (spelling::digit_count(s) + 1);
    if !ends_at(t, len) {
        return 0;
    }
    if digits::lanes_into(w, at + 1, table, &t[0..len], start, n, s) < n {
        words::clear(w, at);
        return 0;
    }
    w[at] = p;
    len
}

// The value that the first field of t spells, as words from `at` on, the empty value's where it spells none; answers the field's length.
pub fn read_field(w: &mut [u64], at: usize, table: &Digits, t: &[u8]) -> usize
    requires { at + 17 ≤ length w.old }
    ensures { (result ≡ place_of 9 t.now)
        × (w.new ≡ put w.old at (words_of (read_value (take (place_of 9 t.now) t.now)).value)) }
{
    if t.len() == 0 {
        words::clear(w, at);
        return 0;
    }
    let len = value_into(w, at, table, t);
    if len > 0 { len } else { find_tab(t) }
}

// ---- values by records

// The value whose words are these, where it is all of s; else what is wrong with s.
fn reading_of(w: &[u64], len: usize, s: &[u8]) -> Reading
    requires { (len ≡ place_of 9 s.now) × (value_at w.now 0 ≡ (read_value (take (place_of 9 s.now) s.now)).value) }
    ensures { result ≡ read_value s.now }
{
    if (words::place_at(w, 0) != 0) & (len == s.len()) {
        return Reading {
            fault: Fault::Nothing,
            place: 0,
            value: words::value_at(w, 0),
        };
    }
    let f = faults::fault_in(s);
    Reading {
        fault: f.fault,
        place: f.place,
        value: values::empty(),
    }
}

// A value's spelling, read.
pub fn read_value(s: &[u8]) -> Reading
    ensures { result ≡ read_value s.now }
{
    let table = spelling::digit_table();
    let mut w: [u64; 17] = [0; 17];
    let len = read_field(&mut w, 0, &table, s);
    reading_of(&w, len, s)
}

// ---- values into lent words

// What reading a value's text into lent words gives: the refusal's number, 0 where it is read, and the place of its fault, 0 where there is none.
#[derive(Clone, Copy)]
pub struct ReadInto {
    pub refusal: u8,
    pub place: usize,
}

// Reads a value's text into its words, at the start of the lent words; a refusal leaves them as they are.
pub fn read_into(text: &[u8], out: &mut [u64]) -> ReadInto
    ensures { (result ≡ read_in (length out.old) text.now)
        × (out.new ≡ put out.old 0 (words_in (length out.old) text.now)) }
{
    let a = read_value(text);
    let refusal = faults::fault_number(a.fault);
    if refusal != 0 {
        return ReadInto {
            refusal,
            place: a.place,
        };
    }
    if out.len() < 17 {
        return ReadInto {
            refusal: 8,
            place: a.place,
        };
    }
    words::put_value(out, 0, a.value);
    ReadInto {
        refusal: 0,
        place: a.place,
    }
}
