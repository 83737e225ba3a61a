// A whole material in one call, as words: calls of 54 words one after another, answers of 36. specs/Materials says what it gives, of records too.
#![tactic(auto)]

ghost use Rattle.std.specs.Prelude.{◌≡◌, cond, [], ◌∷◌, ◌+◌, ◌≤◌, ◌<◌, ◌-◌, min, eqb, length, replicate};
ghost use Rattle.refusals.specs.Refusals.{told};
ghost use Rattle.buffers.specs.Memory.{put};
ghost use Rattle.calls.specs.Words.{call_of};
ghost use Rattle.builtins.specs.Fold.{fold_in};
ghost use Rattle.materials.specs.Words.{call_count, answer_words, refusal_of_all, written_of_all};

use engines::Engine;
use readings::Reading;
use refusals::Refusal;

// A refused call hands up two empty values and no loss.
fn clear_refused(answer: &mut [u64], refusal: u8)
    requires { length answer.old ≡ 36 }
    ensures { answer.new ≡ cond (eqb refusal 0) answer.old (put answer.old 0 (replicate 35 0)) }
{
    if refusal == 0 {
        return;
    }
    words::clear(answer, 0);
    words::clear(answer, 17);
    answer[34] = 0;
}

// The refusal's number, behind the words of the answer.
fn put_refusal(answer: &mut [u64], refusal: u8)
    requires { length answer.old ≡ 36 }
    ensures { answer.new ≡ put answer.old 35 (refusal ∷ []) }
{
    answer[35] = refusal as u64;
}

// One call, its refusal among the words of its answer.
fn fold_one(reading: Reading, engine: Engine, call: &[u64], answer: &mut [u64])
    requires { length answer.old ≡ 36 }
    ensures { answer.new ≡ answer_words (fold_in reading (call_of call.now)) }
{
    let refusal = refusals::told(builtins::fold_in(reading, engine, call, answer));
    clear_refused(answer, refusal);
    put_refusal(answer, refusal);
}

// How many calls stand in so many words.
fn call_count(words: usize) -> usize
    ensures { result ≡ call_count words }
{
    if words == 0 {
        return 0;
    }
    (words - 1) / 54 + 1
}

// Where the call that starts at i ends: the last one may be short.
fn call_end(i: usize, words: usize) -> usize
    requires { i ≤ words }
    ensures { result ≡ i + min 54 (words - i) }
{
    i + 54.min(words - i)
}

// Folds every call, in the reading and by the engine that the caller chooses once for all. Where there is no room for all answers it writes nothing.
pub fn fold_words(
    reading: Reading,
    engine: Engine,
    calls: &[u64],
    answers: &mut [u64],
) -> Result<(), Refusal>
    ensures { (told result ≡ refusal_of_all (length answers.old) calls.now)
        × (answers.new ≡ put answers.old 0 (written_of_all reading (length answers.old) calls.now)) }
{
    let n = call_count(calls.len());
    if answers.len() < 36 * n {
        return Err(Refusal::NoRoom);
    }
    for k in 0..n {
        let i = 54 * k;
        let end = call_end(i, calls.len());
        let at = 36 * k;
        fold_one(reading, engine, &calls[i..end], &mut answers[at..at + 36]);
    }
    Ok(())
}
