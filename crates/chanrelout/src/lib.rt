// What a C or Rust program links: `rt lib` in this folder writes out/libchanrelout.a. Numbers pass as themselves, a slice as a
// pointer and a length. bindings/ has the C header and the Rust crate.
#![tactic(auto)]

ghost use Rattle.std.specs.Prelude.{◌≡◌, true, false, cond, ◌&&◌, [], length, MatchOption};
ghost use Rattle.readings.specs.Readings.{is_reading, reading_at};
ghost use Rattle.engines.specs.Engines.{is_engine, engine_at};
ghost use Rattle.half.specs.Convert.{half_of, single_of};
ghost use Rattle.losses.specs.Losses.{told_of};
ghost use Rattle.buffers.specs.Memory.{put};
ghost use Rattle.lines.specs.Line as text;
ghost use Rattle.words.specs.Words.{value_at};
ghost use Rattle.builtins.specs.Words.{refusal_in, written_in};
ghost use Rattle.materials.specs.Words.{refusal_of_all, written_of_all};
ghost use Rattle.reading.specs.Into.{read_in, words_in};
ghost use Rattle.writing.specs.Into.{written_as, text_in};
ghost use Rattle.order.specs.Order as order;
ghost use Rattle.sorting.specs.Sorting.{sorted_of, index_in};
ghost use Rattle.diffs.specs.Diffs.{compared_in, kinds_in};
ghost use Rattle.diffs.specs.Places.{first_place};
ghost use Rattle.numbers.specs.Number.{told_number, refusal_or_count, line_number, read_number, written_number, sort_number, diff_number, place_number};

use engines::Engine;
use readings::Reading;

// Folds a line of 01 into its answer, without newlines. Answers the refusal's number times 2^32, or the length of what was written.
#[unsafe(no_mangle)]
pub extern "C" fn chanrelout_line(line: &[u8], out: &mut [u8]) -> u64
    ensures { (result ≡ line_number (text.line_answer Reading.Crate (length out.old) line.now))
        × (out.new ≡ put out.old 0 (text.written_in Reading.Crate (length out.old) line.now)) }
{
    let a = lines::fold_line(line, out);
    numbers::line_number(a)
}

// Folds a call of words into the words of its answer. Answers the refusal's number, 0 where there is none.
#[unsafe(no_mangle)]
pub extern "C" fn chanrelout_call(call: &[u64], out: &mut [u64]) -> u8
    ensures { (result ≡ refusal_in Reading.Crate (length out.old) call.now)
        × (out.new ≡ put out.old 0 (written_in Reading.Crate (length out.old) call.now)) }
{
    refusals::told(builtins::fold(call, out))
}

// What a number gives that is no reading or no engine: a refusal by 1, as of a name that is not in the table, before anything is looked at.
const NO_SUCH_CHOICE: u8 = 1;

// The reading and the engine of two numbers that have both.
fn choices(reading: u64, engine: u64) -> Option<(Reading, Engine)>
    ensures { MatchOption result (is_reading reading && is_engine engine ≡ false) (λ c. (is_reading reading && is_engine engine ≡ true) × (c.0 ≡ reading_at reading) × (c.1 ≡ engine_at engine)) }
{
    let reading = Reading::try_from(reading).ok()?;
    let engine = Engine::try_from(engine).ok()?;
    Some((reading, engine))
}

// The same two in a reading, 0 the crate's and 1 the text's, and by an engine, 0 arithmetic and 1 tables, which changes no answer.
#[unsafe(no_mangle)]
pub extern "C" fn chanrelout_line_by(reading: u64, engine: u64, line: &[u8], out: &mut [u8]) -> u64
    ensures { (result ≡ cond (is_reading reading && is_engine engine) (line_number (text.line_answer (reading_at reading) (length out.old) line.now)) (refusal_or_count 1 0))
        × (out.new ≡ put out.old 0 (cond (is_reading reading && is_engine engine) (text.written_in (reading_at reading) (length out.old) line.now) [])) }
{
    match choices(reading, engine) {
        Some((reading, engine)) => {
            let a = lines::fold_line_in(reading, engine, line, out);
            numbers::line_number(a)
        }
        None => NO_SUCH_CHOICE as u64 * 0x1_0000_0000,
    }
}

#[unsafe(no_mangle)]
pub extern "C" fn chanrelout_call_by(reading: u64, engine: u64, call: &[u64], out: &mut [u64]) -> u8
    ensures { (result ≡ cond (is_reading reading && is_engine engine) (refusal_in (reading_at reading) (length out.old) call.now) 1)
        × (out.new ≡ put out.old 0 (cond (is_reading reading && is_engine engine) (written_in (reading_at reading) (length out.old) call.now) [])) }
{
    match choices(reading, engine) {
        Some((reading, engine)) => refusals::told(builtins::fold_in(reading, engine, call, out)),
        None => NO_SUCH_CHOICE,
    }
}

// In a reading, by arithmetic.
#[unsafe(no_mangle)]
pub extern "C" fn chanrelout_line_in(reading: u64, line: &[u8], out: &mut [u8]) -> u64
    ensures { (result ≡ cond (is_reading reading) (line_number (text.line_answer (reading_at reading) (length out.old) line.now)) (refusal_or_count 1 0))
        × (out.new ≡ put out.old 0 (cond (is_reading reading) (text.written_in (reading_at reading) (length out.old) line.now) [])) }
{
    chanrelout_line_by(reading, 0, line, out)
}

#[unsafe(no_mangle)]
pub extern "C" fn chanrelout_call_in(reading: u64, call: &[u64], out: &mut [u64]) -> u8
    ensures { (result ≡ cond (is_reading reading) (refusal_in (reading_at reading) (length out.old) call.now) 1)
        × (out.new ≡ put out.old 0 (cond (is_reading reading) (written_in (reading_at reading) (length out.old) call.now) [])) }
{
    chanrelout_call_by(reading, 0, call, out)
}

// Folds a whole material, calls of 54 words one after another, into answers of 36 words: those of one answer and behind them its refusal's number. Answers 8 where there is no
// room for all of them, and 0 otherwise; a call that is refused does not end the work.
#[unsafe(no_mangle)]
pub extern "C" fn chanrelout_calls_by(
    reading: u64,
    engine: u64,
    calls: &[u64],
    out: &mut [u64],
) -> u8
    ensures { (result ≡ cond (is_reading reading && is_engine engine) (refusal_of_all (length out.old) calls.now) 1)
        × (out.new ≡ put out.old 0 (cond (is_reading reading && is_engine engine) (written_of_all (reading_at reading) (length out.old) calls.now) [])) }
{
    match choices(reading, engine) {
        Some((reading, engine)) => refusals::told(materials::fold_words(
            reading, engine, calls, out,
        )),
        None => NO_SUCH_CHOICE,
    }
}

// In the crate's reading, by arithmetic.
#[unsafe(no_mangle)]
pub extern "C" fn chanrelout_calls(calls: &[u64], out: &mut [u64]) -> u8
    ensures { (result ≡ refusal_of_all (length out.old) calls.now)
        × (out.new ≡ put out.old 0 (written_of_all Reading.Crate (length out.old) calls.now)) }
{
    chanrelout_calls_by(0, 0, calls, out)
}

// Reads a value's text into its 17 words. Answers the refusal's number times 2^32, and the place of a fault, counted from 1.
#[unsafe(no_mangle)]
pub extern "C" fn chanrelout_read_value(text: &[u8], value: &mut [u64]) -> u64
    ensures { (result ≡ read_number (read_in (length value.old) text.now))
        × (value.new ≡ put value.old 0 (words_in (length value.old) text.now)) }
{
    let a = reading::read_into(text, value);
    numbers::read_number(a)
}

// Writes the text of the value of these words. Answers the refusal's number times 2^32, or the length of what was written.
#[unsafe(no_mangle)]
pub extern "C" fn chanrelout_write_value(value: &[u64], out: &mut [u8]) -> u64
    ensures { (result ≡ written_number (written_as (length out.old) (value_at value.now 0)))
        × (out.new ≡ put out.old 0 (text_in (length out.old) (value_at value.now 0))) }
{
    let a = writing::write_into(value, out);
    numbers::written_number(a)
}

// How the value of the words a stands to that of b in the one order: 0 before, 1 the same, 2 after, 3 where one is not well formed.
#[unsafe(no_mangle)]
pub extern "C" fn chanrelout_compare(a: &[u64], b: &[u64]) -> u8
    ensures { result ≡ order.number (order.compare_of (value_at a.now 0) (value_at b.now 0)) }
{
    let v = words::value_at(a, 0);
    let w = words::value_at(b, 0);
    let c = order::compare(v, w);
    order::number_of(c)
}

// Writes the numbers of a listing's lines, from 1, in order. Answers the refusal's number times 2^32, or how many lines there are.
#[unsafe(no_mangle)]
pub extern "C" fn chanrelout_sort(listing: &[u8], index: &mut [u16]) -> u64
    ensures { (result ≡ sort_number (sorted_of (length index.old) listing.now))
        × (index.new ≡ put index.old 0 (index_in (length index.old) listing.now)) }
{
    let s = sorting::sort_listing(listing, index);
    numbers::sort_number(s)
}

// Writes the kind of each line of two listings, 0 where it is the same in both. Answers the refusal's number times 2^32, or how many lines the
// longer listing has.
#[unsafe(no_mangle)]
pub extern "C" fn chanrelout_diff(left: &[u8], right: &[u8], kinds: &mut [u8]) -> u64
    ensures { (result ≡ diff_number (compared_in (length kinds.old) left.now right.now))
        × (kinds.new ≡ put kinds.old 0 (kinds_in (length kinds.old) left.now right.now)) }
{
    let c = diffs::compare_listings(left, right, kinds);
    numbers::diff_number(c)
}

// Where the first line that differs stands: its listing, 1 left and 2 right, times 2^32, its place there times 2^16, and its length; 0 where
// none differs or a listing is refused.
#[unsafe(no_mangle)]
pub extern "C" fn chanrelout_first_difference(left: &[u8], right: &[u8]) -> u64
    ensures { result ≡ place_number (first_place left.now right.now) }
{
    let p = diffs::first_place(left, right);
    numbers::place_number(p)
}

// The half nearest to an f32, both as bits.
#[unsafe(no_mangle)]
pub extern "C" fn chanrelout_f32_to_f16(bits: u32) -> u16
    ensures { result ≡ half_of bits }
{
    half::f32_to_f16(bits)
}

// The half nearest to an f32, both as bits, and what was lost: its number times 2^16, and the half.
#[unsafe(no_mangle)]
pub extern "C" fn chanrelout_f32_to_f16_told(bits: u32) -> u32
    ensures { result ≡ told_number (told_of bits) }
{
    let c = losses::f32_to_f16_told(bits);
    numbers::told_number(c)
}

// The f32 that a half is, both as bits.
#[unsafe(no_mangle)]
pub extern "C" fn chanrelout_f16_to_f32(bits: u16) -> u32
    ensures { result ≡ single_of bits }
{
    half::f16_to_f32(bits)
}
