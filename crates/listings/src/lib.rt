// Listings of answer lines: a line read, and a listing taken apart into its lines and judged.
#![tactic(auto)]

ghost use Rattle.std.specs.Prelude.{◌≡◌, cond, [], ◌∷◌, drop};
ghost use Rattle.std.specs.List.{list_all};
ghost use Rattle.fields.specs.Fields.{fields};
ghost use Rattle.spelling.specs.Read.{read_value};
ghost use Rattle.listings.specs.Answers.{no_answer, refused_line, values_line, decimal_digit, is_number, is_pair, faultless, lone_line, pair_line, says_refused, of_fields, read_answer};
ghost use Rattle.listings.specs.Listing.{line_at, next_at, judged_listing};

use choosing::choose;
use spelling::Fault;
use values::{Kind, Scalar, Value};

// A longer listing is refused.
pub const LONGEST_LISTING: usize = 32768;

// What a line says: whether it is an answer line, whether a refused one, and its values, empty where it has none.
#[derive(Clone, Copy)]
pub struct Answered {
    pub ok: bool,
    pub refused: bool,
    pub first: Value,
    pub second: Value,
}

// A listing's refusal, 0 where there is none, and how many lines it has.
#[derive(Clone, Copy)]
pub struct Judged {
    pub refusal: u8,
    pub count: usize,
}

// ---- an answer line

fn no_answer() -> Answered
    ensures { result ≡ no_answer }
{
    Answered {
        ok: false,
        refused: false,
        first: values::empty(),
        second: values::empty(),
    }
}

// A refused line, where `good`.
fn refused_if(good: bool) -> Answered
    ensures { result ≡ cond good refused_line no_answer }
{
    Answered {
        ok: good,
        refused: good,
        first: values::empty(),
        second: values::empty(),
    }
}

fn values_line(v: Value, w: Value) -> Answered
    ensures { result ≡ values_line v w }
{
    Answered {
        ok: true,
        refused: false,
        first: v,
        second: w,
    }
}

fn is_decimal(x: u8) -> bool
    ensures { result ≡ decimal_digit x }
{
    (48 <= x) & (x <= 57)
}

fn all_decimal(s: &[u8]) -> bool
    ensures { result ≡ list_all decimal_digit s.now }
{
    s.iter().all(|x| is_decimal(*x))
}

// One to three decimal digits.
fn is_number(s: &[u8]) -> bool
    ensures { result ≡ is_number s.now }
{
    let n = s.len();
    (1 <= n) & (n <= 3) & all_decimal(s)
}

// Whether k is a float type, no matrix, and l of i32s in its shape.
fn is_pair(k: Kind, l: Kind) -> bool
    ensures { result ≡ is_pair k l }
{
    let single = k == values::shaped_as(Scalar::F32, k);
    let half = k == values::shaped_as(Scalar::F16, k);
    let float = (single | half) & values::is_type(k);
    float & (l == values::shaped_as(Scalar::I32, k))
}

fn is_faultless(f: Fault) -> bool
    ensures { result ≡ faultless f }
{
    matches!(f, Fault::Nothing)
}

fn read_lone(v: &[u8]) -> Answered
    ensures { result ≡ lone_line (read_value v.now) }
{
    let a = reading::read_value(v);
    if is_faultless(a.fault) {
        values_line(a.value, values::empty())
    } else {
        no_answer()
    }
}

fn read_pair(v: &[u8], w: &[u8]) -> Answered
    ensures { result ≡ pair_line (read_value v.now) (read_value w.now) }
{
    let a = reading::read_value(v);
    let b = reading::read_value(w);
    if is_faultless(a.fault) & is_faultless(b.fault) & is_pair(a.value.kind, b.value.kind) {
        values_line(a.value, b.value)
    } else {
        no_answer()
    }
}

fn says_refused(s: &[u8]) -> bool
    ensures { result ≡ says_refused s.now }
{
    buffers::same(s, b"refused")
}

fn read_two(v: &[u8], w: &[u8]) -> Answered
    ensures { result ≡ of_fields (v.now ∷ w.now ∷ []) }
{
    if says_refused(v) {
        refused_if(is_number(w))
    } else {
        read_pair(v, w)
    }
}

fn read_three(v: &[u8], n: &[u8], p: &[u8]) -> Answered
    ensures { result ≡ of_fields (v.now ∷ n.now ∷ p.now ∷ []) }
{
    refused_if(says_refused(v) & is_number(n) & is_number(p))
}

// A line whose first two fields are v and n, by what follows them.
fn read_third(v: &[u8], n: &[u8], t: &[u8]) -> Answered
    ensures { result ≡ of_fields (v.now ∷ n.now ∷ fields t.now) }
{
    if buffers::find(t, b'\t') < t.len() {
        no_answer()
    } else {
        read_three(v, n, t)
    }
}

// A line whose first field is v, by what follows it.
fn read_second(v: &[u8], t: &[u8]) -> Answered
    ensures { result ≡ of_fields (v.now ∷ fields t.now) }
{
    let n = buffers::find(t, b'\t');
    if n < t.len() {
        read_third(v, &t[0..n], &t[n + 1..])
    } else {
        read_two(v, t)
    }
}

// A line, read as an answer line.
pub fn read_answer(line: &[u8]) -> Answered
    ensures { result ≡ read_answer line.now }
{
    let n = buffers::find(line, b'\t');
    if n < line.len() {
        read_second(&line[0..n], &line[n + 1..])
    } else {
        read_lone(line)
    }
}

// ---- a listing

// What stands from a place on.
fn rest(s: &[u8], at: usize) -> &[u8]
    ensures { result.now ≡ drop at s.now }
{
    if at < s.len() { &s[at..] } else { &s[0..0] }
}

// The line of a listing that starts at a place.
pub fn line_at(listing: &[u8], at: usize) -> &[u8]
    ensures { result.now ≡ line_at listing.now at }
{
    let t = rest(listing, at);
    let n = buffers::find(t, b'\n');
    &t[0..n]
}

// The place after that line and its newline.
pub fn next_at(listing: &[u8], at: usize) -> usize
    ensures { result ≡ next_at listing.now at }
{
    let t = rest(listing, at);
    let n = buffers::find(t, b'\n');
    if n < t.len() {
        at + n + 1
    } else {
        listing.len()
    }
}

fn is_answer(line: &[u8]) -> bool
    ensures { result ≡ (read_answer line.now).ok }
{
    read_answer(line).ok
}

// A listing's refusal and its count of lines.
pub fn judge_listing(listing: &[u8]) -> Judged
    ensures { result ≡ judged_listing listing.now }
{
    if listing.len() > LONGEST_LISTING {
        return Judged {
            refusal: 15,
            count: 0,
        };
    }
    let mut good = true;
    let mut count = 0;
    let mut at = 0;
    while at < listing.len() {
        good &= is_answer(line_at(listing, at));
        count += 1;
        at = next_at(listing, at);
    }
    Judged {
        refusal: choose(good, 0, 14),
        count,
    }
}
