// Calls nested on one line: Q-8's grammar, read.
#![tactic(auto)]

ghost use Rattle.std.specs.Prelude.{◌≡◌, cond, ◌+◌, ◌<◌, ◌≤◌, length, get_or};
ghost use Rattle.std.specs.List.{list_all, prefix_len};
ghost use Rattle.nesting.specs.Grammar.{letter_or_digit, plain, is_nested};
ghost use Rattle.nesting.specs.Read.{refusal_of};
ghost use Rattle.nesting.specs.Program.{word_end, head_at, argument_at, call_at, rest_at, judged_of};

// What an argument starts with, and where that ends: a name with an opening bracket after it, and whether the name is bitcast's; or a spelling.
#[derive(Clone, Copy)]
pub enum Head {
    Call(usize, bool),
    Spelling(usize),
}

// Where what was read ends, and how deep it is.
#[derive(Clone, Copy)]
pub struct Reached {
    pub end: usize,
    pub depth: usize,
}

// Whether a line holds an opening bracket.
pub fn is_nested(line: &[u8]) -> bool
    ensures { result ≡ is_nested line.now }
{
    buffers::find(line, b'(') < line.len()
}

// ---- words

fn is_letter_or_digit(x: u8) -> bool
    ensures { result ≡ letter_or_digit x }
{
    x.is_ascii_alphanumeric()
}

fn is_plain(x: u8) -> bool
    ensures { result ≡ plain x }
{
    (x != b'\t') & (x != b';') & (x != b'(') & (x != b')')
}

// Whether a word could be a name.
fn letters_and_digits(w: &[u8]) -> bool
    ensures { result ≡ list_all letter_or_digit w.now }
{
    w.iter().all(|x| is_letter_or_digit(*x))
}

// How many bytes of `s` stand before the first that is not plain.
fn word_length(s: &[u8]) -> usize
    ensures { result ≡ prefix_len plain s.now }
{
    s.iter().take_while(|x| is_plain(**x)).count()
}

fn word_end(s: &[u8], at: usize) -> usize
    requires { at ≤ length s.now }
    ensures { (result ≡ word_end s.now at) × (at ≤ result) × (result ≤ length s.now) }
{
    at + word_length(&s[at..])
}

// The byte at `at`, 0 past the end.
pub fn byte_at(s: &[u8], at: usize) -> u8
    ensures { result ≡ get_or s.now at 0 }
{
    s.get(at).copied().unwrap_or(0)
}

// What the argument from `at` on starts with, `None` where it is empty; a bitcast's `first` is no call.
pub fn head_of(s: &[u8], at: usize, first: bool) -> Option<Head>
    requires { at ≤ length s.now }
    ensures { result ≡ head_at first s.now at }
{
    let e = word_end(s, at);
    if at == e {
        return None;
    }
    let w = &s[at..e];
    if (!first) & letters_and_digits(w) & (byte_at(s, e) == b'(') {
        return Some(Head::Call(e, buffers::same(b"bitcast", w)));
    }
    Some(Head::Spelling(e))
}

// ---- arguments and calls

// The mark that closes a call, and the one that parts its arguments.
const CLOSING: u8 = b')';

const PARTING: u8 = b';';

// An argument: a spelling, or a call.
#[cycle(argument_call_rest)]
fn argument(s: &[u8], at: usize, first: bool) -> Option<Reached>
    requires { at ≤ length s.now }
    ensures { result ≡ argument_at first s.now at }
{
    match head_of(s, at, first)? {
        Head::Spelling(e) => Some(Reached { end: e, depth: 0 }),
        Head::Call(bracket, bitcast) => call(s, bracket, bitcast),
    }
}

// A call from its opening bracket on, or from a semicolon.
#[cycle(argument_call_rest)]
fn call(s: &[u8], at: usize, first: bool) -> Option<Reached>
    requires { at < length s.now }
    ensures { result ≡ call_at first s.now at }
{
    rest(s, argument(s, at + 1, first)?)
}

// A call from the end of an argument on.
#[cycle(argument_call_rest)]
fn rest(s: &[u8], given: Reached) -> Option<Reached>
    requires { given.depth ≤ given.end }
    ensures { result ≡ rest_at s.now given.end given.depth }
{
    let mark = byte_at(s, given.end);
    if mark == CLOSING {
        return Some(Reached {
            end: given.end + 1,
            depth: given.depth + 1,
        });
    }
    if mark == PARTING {
        let others = call(s, given.end, false)?;
        return Some(Reached {
            end: others.end,
            depth: (given.depth + 1).max(others.depth),
        });
    }
    None
}

// ---- lines

// The number of a line, of which all was read or not, and which is 8 deep at most or not.
fn number(whole: bool, shallow: bool) -> u8
    ensures { result ≡ cond whole (cond shallow 0 13) 12 }
{
    if whole {
        if shallow { 0 } else { 13 }
    } else {
        12
    }
}

fn judged(call: Option<Reached>, n: usize) -> u8
    ensures { result ≡ judged_of call n }
{
    match call {
        Some(x) => number(x.end == n, x.depth <= 8),
        None => 12,
    }
}

// The line's call.
fn outermost(line: &[u8]) -> Option<Reached>
    ensures { judged_of result (length line.now) ≡ refusal_of line.now }
{
    match head_of(line, 0, false)? {
        Head::Spelling(_) => None,
        Head::Call(bracket, bitcast) => call(line, bracket, bitcast),
    }
}

// 0 for a line that is a call, 12 for any other, 13 for one that nests more than 8 deep.
pub fn refusal(line: &[u8]) -> u8
    ensures { result ≡ refusal_of line.now }
{
    judged(outermost(line), line.len())
}
