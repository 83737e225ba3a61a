// 01's records as a view of the fold of words: a call by value, and its answer by value.
#![tactic(auto)]

ghost use Rattle.std.specs.Prelude.{◌≡◌, ◌<◌, ◌≤◌, length, replicate, get_or};
ghost use Rattle.calls.specs.Words.{call_of};
ghost use Rattle.builtins.specs.Fold.{fold_in, fold_of};

use builtins::Answer;
use calls::Call;
use engines::Engine;
use readings::Reading;

// The words of a call.
fn put_call(w: &mut [u64], call: Call)
    requires { length w.old ≡ 54 }
    ensures { call_of w.new ≡ call }
{
    let which = call.builtin;
    let target = call.target;
    let a = call.a;
    let b = call.b;
    let c = call.c;
    words::put_value(w, 3, a);
    words::put_value(w, 20, b);
    words::put_value(w, 37, c);
    calls::put_head(
        w,
        calls::number_of(which),
        call.count as u64,
        values::place_of(target),
    );
}

// What was lost, behind an answer's two values.
fn loss_in(out: &[u64]) -> u8
    requires { (34 < length out.now) × (get_or out.now 34 0 ≤ 2) }
    ensures { result ≡ get_or out.now 34 0 }
{
    out[34] as u8
}

// A refused call leaves the words of its answer as they are: two empty values and no loss.
fn fold_words(
    reading: Reading,
    engine: Engine,
    w: &mut [u64],
    out: &mut [u64],
    call: Call,
) -> Answer
    requires { (length w.old ≡ 54) × (out.old ≡ replicate 35 0) }
    ensures { result ≡ fold_in reading call }
{
    put_call(w, call);
    let refused = builtins::fold_in(reading, engine, w, out);
    Answer {
        refusal: refusals::told(refused),
        first: words::value_at(out, 0),
        second: words::value_at(out, 17),
        loss: loss_in(out),
    }
}

// What a call gives in the reading and by the engine that the caller chooses.
pub fn fold_in(reading: Reading, engine: Engine, call: Call) -> Answer
    ensures { result ≡ fold_in reading call }
{
    let mut w = [0; 54];
    let mut out = [0; 35];
    fold_words(reading, engine, &mut w, &mut out, call)
}

// In the crate's reading, by arithmetic.
pub fn fold(call: Call) -> Answer
    ensures { result ≡ fold_of call }
{
    fold_in(Reading::Crate, Engine::Arithmetic, call)
}
