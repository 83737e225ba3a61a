// Calls nested on one line, folded: those among the arguments first, from left to right, then the call itself.
#![tactic(auto)]

ghost use Rattle.std.specs.Prelude.{◌≡◌, ◌+◌, ◌-◌, ◌<◌, ◌≤◌, length, take, drop, Some};
ghost use Rattle.misspellings.specs.Misspellings.{rightly};
ghost use Rattle.nesting.specs.Read.{refusal_of};
ghost use Rattle.nested.specs.Nested.{refused_at, told, of_call, spelled_type, spelled_value, spelled, handed, first_of, alone, joined, call_by, judged, nested_of};
ghost use Rattle.nested.specs.Program.{called_of, outermost_of, one_at, all_at, rest_at};

use builtins::Answer;
use calls::Call;
use engines::Engine;
use misspellings::Misspelling;
use nesting::Head;
use readings::Reading;
use values::{Kind, Value};

// An argument: a type, or a value that is spelled or that a call gives. A call that is refused, and what is wrongly spelled, each with its place from 1 in the line; 0 and 0 elsewhere.
#[derive(Clone, Copy)]
pub struct Argument {
    pub typed: bool,
    pub refused: Misspelling,
    pub fault: Misspelling,
    pub kind: Kind,
    pub value: Value,
}

// The arguments of a call: the first refusal and the first fault among them, how many they are, bitcast's type and the first three values.
#[derive(Clone, Copy)]
pub struct Arguments {
    pub refused: Misspelling,
    pub fault: Misspelling,
    pub count: usize,
    pub target: Kind,
    pub a: Value,
    pub b: Value,
    pub c: Value,
}

// What a call gives, and the place of what is misspelled, 0 where nothing is.
#[derive(Clone, Copy)]
pub struct Folded {
    pub answer: Answer,
    pub place: usize,
}

// What was read, and where it ends.
#[derive(Clone, Copy)]
pub struct Ended<T> {
    pub given: T,
    pub end: usize,
}

// ---- what a call gives

pub fn refused_at(n: u8, p: usize) -> Folded
    ensures { result ≡ refused_at n p }
{
    Folded {
        answer: Answer {
            refusal: n,
            first: values::empty(),
            second: values::empty(),
            loss: 0,
        },
        place: p,
    }
}

// A misspelling is told in the place of 3.
fn tell(x: Answer, fault: Misspelling) -> Folded
    ensures { result ≡ told x fault }
{
    if x.refusal == 3 {
        return refused_at(fault.refusal, fault.place);
    }
    Folded {
        answer: x,
        place: 0,
    }
}

// The call of a name and its arguments.
fn call_by(w: &[u8], g: Arguments) -> Call
    ensures { result ≡ call_by w.now g }
{
    let call = Call {
        builtin: calls::builtin_at(names::number_of(w)),
        count: g.count,
        target: g.target,
        a: g.a,
        b: g.b,
        c: g.c,
    };
    if buffers::same(b"bitcast", w) {
        return Call {
            b: values::empty(),
            c: values::empty(),
            ..call
        };
    }
    call
}

// What the call gives; one among its arguments that is refused refuses it.
fn judge(reading: Reading, engine: Engine, w: &[u8], g: Arguments) -> Folded
    ensures { result ≡ judged reading w.now g }
{
    if g.refused.refusal != 0 {
        return refused_at(g.refused.refusal, g.refused.place);
    }
    tell(records::fold_in(reading, engine, call_by(w, g)), g.fault)
}

// ---- an argument

fn rightly_spelled() -> Misspelling
    ensures { result ≡ rightly }
{
    Misspelling {
        refusal: 0,
        place: 0,
    }
}

fn of_call(m: Misspelling, v: Value) -> Argument
    ensures { result ≡ of_call m v }
{
    Argument {
        typed: false,
        refused: m,
        fault: rightly_spelled(),
        kind: Kind::Empty,
        value: v,
    }
}

// What the call of a name gives, as an argument: of frexp nothing.
fn handed_by(w: &[u8], x: Folded) -> Argument
    ensures { result ≡ handed w.now x }
{
    if buffers::same(b"frexp", w) & (x.answer.refusal == 0) {
        return of_call(misspellings::misspelled(4, 0), values::empty());
    }
    of_call(
        misspellings::misspelled(x.answer.refusal, x.place),
        x.answer.first,
    )
}

// A type's spelling, which starts after `at` bytes of the line.
fn spelled_type(w: &[u8], at: usize) -> Argument
    requires { at ≤ 400 }
    ensures { result ≡ spelled_type at w.now }
{
    Argument {
        typed: true,
        refused: rightly_spelled(),
        fault: misspellings::in_line(at + 1, misspellings::type_fault(w)),
        kind: values::kind_at(typenames::type_of(w)),
        value: values::empty(),
    }
}

// A value's.
fn spelled_value(w: &[u8], at: usize) -> Argument
    requires { at ≤ 400 }
    ensures { result ≡ spelled_value at w.now }
{
    let x = reading::read_value(w);
    let m = misspellings::misspelled(faults::fault_number(x.fault), x.place);
    Argument {
        typed: false,
        refused: rightly_spelled(),
        fault: misspellings::in_line(at + 1, m),
        kind: Kind::Empty,
        value: x.value,
    }
}

// ---- arguments

// The one that is met first.
fn first_of(m: Misspelling, n: Misspelling) -> Misspelling
    ensures { result ≡ first_of m n }
{
    if m.refusal == 0 { n } else { m }
}

// An argument alone.
fn alone_of(x: Argument) -> Arguments
    ensures { result ≡ alone x }
{
    Arguments {
        refused: x.refused,
        fault: first_of(x.fault, rightly_spelled()),
        count: 1,
        target: x.kind,
        a: x.value,
        b: values::empty(),
        c: values::empty(),
    }
}

// An argument before others.
fn with_first(x: Argument, g: Arguments) -> Arguments
    requires { g.count ≤ 400 }
    ensures { result ≡ joined x g }
{
    let refused = first_of(x.refused, g.refused);
    let fault = first_of(x.fault, g.fault);
    let count = g.count + 1;
    if x.typed {
        return Arguments {
            refused,
            fault,
            count,
            target: x.kind,
            ..g
        };
    }
    Arguments {
        refused,
        fault,
        count,
        a: x.value,
        b: g.a,
        c: g.b,
        ..g
    }
}

// ---- what is read

fn spelled_at(s: &[u8], at: usize, e: usize, cast: bool) -> Argument
    requires { (at < e) × (e ≤ length s.now) × (length s.now ≤ 400) }
    ensures { result ≡ spelled cast at (take (e - at) (drop at s.now)) }
{
    let w = &s[at..e];
    if cast {
        spelled_type(w, at)
    } else {
        spelled_value(w, at)
    }
}

fn called(reading: Reading, engine: Engine, w: &[u8], g: Arguments) -> Argument
    ensures { result ≡ handed w.now (judged reading w.now g) }
{
    handed_by(w, judge(reading, engine, w, g))
}

// What the call of a name gives that stands from `at` up to e, with where its arguments end.
fn called_at(
    reading: Reading,
    engine: Engine,
    s: &[u8],
    at: usize,
    e: usize,
    r: Option<Ended<Arguments>>,
) -> Option<Ended<Argument>>
    requires { (at < e) × (e < length s.now) }
    ensures { result ≡ called_of reading (take (e - at) (drop at s.now)) r }
{
    let x = r?;
    let given = called(reading, engine, &s[at..e], x.given);
    Some(Ended { given, end: x.end })
}

// ---- arguments and calls of a line

// An argument: a spelling, or a call.
#[cycle(fold_argument_fold_call_fold_rest)]
fn fold_argument(
    reading: Reading,
    engine: Engine,
    s: &[u8],
    at: usize,
    first: bool,
) -> Option<Ended<Argument>>
    requires { (at ≤ length s.now) × (length s.now ≤ 400) }
    ensures { result ≡ one_at reading first s.now at }
{
    match nesting::head_of(s, at, first)? {
        Head::Spelling(e) => Some(Ended {
            given: spelled_at(s, at, e, first),
            end: e,
        }),
        Head::Call(bracket, bitcast) => called_at(
            reading,
            engine,
            s,
            at,
            bracket,
            fold_call(reading, engine, s, bracket, bitcast),
        ),
    }
}

// The arguments of a call from its opening bracket on, or from a semicolon.
#[cycle(fold_argument_fold_call_fold_rest)]
fn fold_call(
    reading: Reading,
    engine: Engine,
    s: &[u8],
    at: usize,
    first: bool,
) -> Option<Ended<Arguments>>
    requires { (at < length s.now) × (length s.now ≤ 400) }
    ensures { result ≡ all_at reading first s.now at }
{
    let x = fold_argument(reading, engine, s, at + 1, first)?;
    fold_rest(reading, engine, s, x)
}

// The arguments of a call from the end of one on.
#[cycle(fold_argument_fold_call_fold_rest)]
fn fold_rest(
    reading: Reading,
    engine: Engine,
    s: &[u8],
    x: Ended<Argument>,
) -> Option<Ended<Arguments>>
    requires { length s.now ≤ 400 }
    ensures { result ≡ rest_at reading s.now x.given x.end }
{
    let mark = nesting::byte_at(s, x.end);
    if mark == b')' {
        return Some(Ended {
            given: alone_of(x.given),
            end: x.end + 1,
        });
    }
    if mark == b';' {
        let others = fold_call(reading, engine, s, x.end, false)?;
        return Some(Ended {
            given: with_first(x.given, others.given),
            end: others.end,
        });
    }
    None
}

// ---- a line

// The outermost call, whose name ends at e.
fn outermost(
    reading: Reading,
    engine: Engine,
    s: &[u8],
    e: usize,
    r: Option<Ended<Arguments>>,
) -> Option<Folded>
    requires { e ≤ length s.now }
    ensures { result ≡ outermost_of reading (take e s.now) r }
{
    let x = r?;
    Some(judge(reading, engine, &s[..e], x.given))
}

// A line that the grammar takes.
fn fold_whole(reading: Reading, engine: Engine, line: &[u8]) -> Option<Folded>
    requires { (length line.now ≤ 400) × (refusal_of line.now ≡ 0) }
    ensures { result ≡ Some (nested_of reading line.now) }
{
    match nesting::head_of(line, 0, false)? {
        Head::Spelling(_) => None,
        Head::Call(bracket, bitcast) => outermost(
            reading,
            engine,
            line,
            bracket,
            fold_call(reading, engine, line, bracket, bitcast),
        ),
    }
}

// Folds a line of nested calls in the reading and by the engine that the caller chooses.
pub fn fold(reading: Reading, engine: Engine, line: &[u8]) -> Folded
    requires { length line.now ≤ 400 }
    ensures { result ≡ nested_of reading line.now }
{
    let n = nesting::refusal(line);
    if n != 0 {
        return refused_at(n, 0);
    }
    fold_whole(reading, engine, line).unwrap_or(refused_at(12, 0))
}
