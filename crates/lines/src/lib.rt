// A line folded: the call that its fields spell, as words, and the answer's text in lent memory.
#![tactic(auto)]

ghost use Rattle.std.specs.Prelude.{◌≡◌, ◌≤◌, length};
ghost use Rattle.buffers.specs.Memory.{put};
ghost use Rattle.calls.specs.Table.{builtin_at};
ghost use Rattle.calls.specs.Words as Words;
ghost use Rattle.fields.specs.Fields.{field_at, argument_count};
ghost use Rattle.lines.specs.Line.{cast_call, plain_call, is_cast, call_of, line_answer, written_in};
ghost use Rattle.lines.specs.Program.{misspelled_line};

use answers::LineAnswer;
use cutting::MOST_BYTES;
use engines::Engine;
use readings::Reading;
use spelling::Digits;

// ---- the call that a line spells, as words

// The words of bitcast's call on a line of that name, whose first argument is a type.
fn put_cast(w: &mut [u64], table: &Digits, builtin: u64, line: &[u8])
    requires { length w.old ≡ 54 }
    ensures { Words.call_of w.new ≡ cast_call (builtin_at builtin) (argument_count line.now) line.now }
{
    let name = fields::field(line, 0);
    let target = fields::field(line, 1);
    let rest = fields::after(fields::after(line, name.len()), target.len());
    reading::read_field(w, 3, table, rest);
    words::put_lanes(w, 20, 0, [0; 4]);
    words::put_lanes(w, 37, 0, [0; 4]);
    calls::put_head(
        w,
        builtin,
        fields::argument_count(line) as u64,
        typenames::type_of(target),
    );
}

// The words of any other builtin's. Each value is read off what the one before it left; one that is shorter than what it was read off ends in a tab.
fn put_plain(w: &mut [u64], table: &Digits, builtin: u64, line: &[u8], name: &[u8])
    requires { (length w.old ≡ 54) × (name.now ≡ field_at line.now 0) }
    ensures { Words.call_of w.new ≡ plain_call (builtin_at builtin) (argument_count line.now) line.now }
{
    let t1 = fields::after(line, name.len());
    let n1 = reading::read_field(w, 3, table, t1);
    let t2 = fields::after(t1, n1);
    let n2 = reading::read_field(w, 20, table, t2);
    let t3 = fields::after(t2, n2);
    let n3 = reading::read_field(w, 37, table, t3);
    let t4 = fields::after(t3, n3);
    let count = fields::one_if(name.len() < line.len())
        + fields::one_if(n1 < t1.len())
        + fields::one_if(n2 < t2.len())
        + fields::one_if(n3 < t3.len())
        + fields::argument_count(t4);
    calls::put_head(w, builtin, count as u64, 0);
}

// The words of the call that a line of this name spells, bitcast's where `cast`.
fn put_call(w: &mut [u64], line: &[u8], name: &[u8], cast: bool)
    requires { (length w.old ≡ 54) × (name.now ≡ field_at line.now 0) × (cast ≡ is_cast line.now) }
    ensures { Words.call_of w.new ≡ call_of line.now }
{
    let table = spelling::digit_table();
    let builtin = names::number_of(name);
    if cast {
        put_cast(w, &table, builtin, line);
    } else {
        put_plain(w, &table, builtin, line, name);
    }
}

// ---- its answer

// What is told of a line whose call, bitcast's where `cast`, is refused by 3: what is misspelled, and where. Its name ends at `end`.
fn misspelled(line: &[u8], end: usize, cast: bool) -> LineAnswer
    requires { (length line.now ≤ 400) × (end ≡ length (field_at line.now 0)) × (cast ≡ is_cast line.now) }
    ensures { result ≡ misspelled_line line.now }
{
    let m = misspellings::line_fault(line, end, cast);
    LineAnswer {
        refusal: m.refusal,
        len: 0,
        place: m.place,
    }
}

// Folds a line in the reading and by the engine that the caller chooses. The answer is written at the start of the lent memory, without a newline; a refusal leaves the memory as it is.
pub fn fold_line_in(reading: Reading, engine: Engine, line: &[u8], out: &mut [u8]) -> LineAnswer
    ensures { (result ≡ line_answer reading (length out.old) line.now)
        × (out.new ≡ put out.old 0 (written_in reading (length out.old) line.now)) }
{
    if line.len() > MOST_BYTES {
        return LineAnswer {
            refusal: 7,
            len: 0,
            place: 0,
        };
    }
    let mut call: [u64; 54] = [0; 54];
    let name = fields::field(line, 0);
    let cast = buffers::same(b"bitcast", name);
    put_call(&mut call, line, name, cast);
    let mut answer: [u64; 35] = [0; 35];
    let refusal = refusals::told(builtins::fold_in(reading, engine, &call, &mut answer));
    if refusal == 3 {
        return misspelled(line, name.len(), cast);
    }
    answers::put_answer(out, refusal, &answer)
}

// In the crate's reading, by arithmetic.
pub fn fold_line(line: &[u8], out: &mut [u8]) -> LineAnswer
    ensures { (result ≡ line_answer Reading.Crate (length out.old) line.now)
        × (out.new ≡ put out.old 0 (written_in Reading.Crate (length out.old) line.now)) }
{
    fold_line_in(Reading::Crate, Engine::Arithmetic, line, out)
}
