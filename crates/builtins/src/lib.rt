// What a call gives: of a call of words, the words of its answer. What it means is in specs/: `fold_in` gives the answer of every call in each reading.
#![tactic(auto)]

mod matrix;

ghost use Rattle.std.specs.Prelude.{◌≡◌, [], ◌∷◌, ◌≤◌, length, take};
ghost use Rattle.refusals.specs.Refusals.{told};
ghost use Rattle.values.specs.Value.{lane_count, kind_at, value};
ghost use Rattle.buffers.specs.Memory.{put};
ghost use Rattle.words.specs.Words.{words_of};
ghost use Rattle.calls.specs.Refuse.{refusal_of};
ghost use Rattle.calls.specs.Words.{call_of};
ghost use Rattle.builtins.specs.Program.{answer_in, Told};
ghost use Rattle.builtins.specs.Words.{refusal_in, written_in};

use arms::Outcome;
use engines::Engine;
use readings::Reading;
use refusals::Refusal;
use values::Value;

// `refusal` is 01's number, 0 where the call is answered. Only frexp has a second value, and only pack2x16float a loss, the number of Q-7.
#[derive(Clone, Copy)]
pub struct Answer {
    pub refusal: u8,
    pub first: Value,
    pub second: Value,
    pub loss: u8,
}

// The last place of a scalar or a vector: past it stand the matrices.
const LAST_VECTOR: u64 = 20;

// ---- calls

// What refuses a call of words, asked for by a slice of its own: a slice that is handed on as it stands is kept in memory on every way, and read from there.
fn judge(w: &[u64]) -> Result<(), Refusal>
    ensures { told result ≡ refusal_of (call_of w.now) }
{
    judging::judge(&w[0..])
}

// An answer's second value: most have none.
fn put_second(out: &mut [u64], p: u64, y: [u32; 4])
    requires { (35 ≤ length out.old) × (p ≤ 20) }
    ensures { out.new ≡ put out.old 17 (words_of (value (kind_at p) (take (lane_count (kind_at p)) y))) }
{
    if p == 0 {
        words::clear(out, 17);
    } else {
        words::put_lanes(out, 17, p, y);
    }
}

// What was lost, behind the two values.
fn put_loss(out: &mut [u64], loss: u8)
    requires { 35 ≤ length out.old }
    ensures { out.new ≡ put out.old 34 (loss ∷ []) }
{
    out[34] = loss as u64;
}

// An answer's two values and its loss, where there is room for them.
fn put_answer(out: &mut [u64], a: Outcome) -> Result<(), Refusal>
    requires { (a.first ≤ 20) × (a.second ≤ 20) }
    ensures { Told (answer_in a) out.old (told result) out.new }
{
    if out.len() < 35 {
        return Err(Refusal::NoRoom);
    }
    let x = a.lanes;
    let y = a.exponents;
    words::put_lanes(out, 0, a.first, x);
    put_second(out, a.second, y);
    put_loss(out, a.loss);
    Ok(())
}

// Folds a call of words into the words of its answer, in the reading and by the engine that the caller chooses.
pub fn fold_in(reading: Reading, engine: Engine, w: &[u64], out: &mut [u64]) -> Result<(), Refusal>
    ensures { (told result ≡ refusal_in reading (length out.old) w.now)
        × (out.new ≡ put out.old 0 (written_in reading (length out.old) w.now)) }
{
    let p = words::place_at(w, 3);
    if p > LAST_VECTOR {
        return matrix::fold(reading, w, p, out);
    }
    if p == 0 {
        return judge(w);
    }
    if !words::formed_as(w, 3, p) {
        return judge(w);
    }
    let i = w[0];
    let a = arms::arm(
        reading,
        engine,
        calls::builtin_at(i),
        w,
        p,
        words::cut_at(w, 3),
    );
    if !a.passes {
        return judge(w);
    }
    put_answer(out, a)
}

// In the crate's reading, by arithmetic.
pub fn fold(w: &[u64], out: &mut [u64]) -> Result<(), Refusal>
    ensures { (told result ≡ refusal_in Reading.Crate (length out.old) w.now)
        × (out.new ≡ put out.old 0 (written_in Reading.Crate (length out.old) w.now)) }
{
    fold_in(Reading::Crate, Engine::Arithmetic, w, out)
}
