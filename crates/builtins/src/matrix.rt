// Matrices, whole: only select and transpose take them, alike in each reading. A call is judged first; select copies a matrix, transpose turns an array of its columns.
ghost use Rattle.std.specs.Prelude.{◌≡◌, cond, ◌≤◌, ◌<◌, eqb, length, take, drop, get_or};
ghost use Rattle.refusals.specs.Refusals.{told};
ghost use Rattle.values.specs.Value.{place};
ghost use Rattle.buffers.specs.Memory.{put};
ghost use Rattle.words.specs.Words.{value_at, words_of};
ghost use Rattle.calls.specs.Refuse.{refusal_of};
ghost use Rattle.calls.specs.Words.{call_of};
ghost use Rattle.calls.specs.Program.{FirstMatrix};
ghost use Rattle.builtins.specs.Fold.{fold_in};
ghost use Rattle.builtins.specs.Words.{refusal_in, written_in};

use readings::Reading;
use refusals::Refusal;

// One of the two values, whole: a matrix goes with a scalar condition alone.
fn put_selected(w: &[u64], out: &mut [u64])
    requires { (54 ≤ length w.now) × (17 ≤ length out.old) }
    ensures { out.new ≡ put out.old 0 (cond (eqb (get_or w.now 38 0) 0) (take 17 (drop 3 w.now)) (take 17 (drop 20 w.now))) }
{
    if w[38] == 0 {
        moves::matrix::put_copy(&w[3..20], out);
    } else {
        moves::matrix::put_copy(&w[20..37], out);
    }
}

// ---- calls

const SELECT: u64 = 3;

// The first value of the answer, which is all of it.
fn put_first(reading: Reading, w: &[u64], p: u64, out: &mut [u64])
    requires { FirstMatrix w.now p × (17 ≤ length out.old) × (refusal_of (call_of w.now) ≡ 0) }
    ensures { out.new ≡ put out.old 0 (words_of (fold_in reading (call_of w.now)).first) }
{
    if w[0] == SELECT {
        put_selected(w, out);
    } else {
        moves::matrix::put_transposed(w, p, out);
    }
}

pub fn fold(reading: Reading, w: &[u64], p: u64, out: &mut [u64]) -> Result<(), Refusal>
    requires { (p ≡ place (value_at w.now 3).kind) × (20 < p) × (p < 39) }
    ensures { (told result ≡ refusal_in reading (length out.old) w.now)
        × (out.new ≡ put out.old 0 (written_in reading (length out.old) w.now)) }
{
    crate::judge(w)?;
    if out.len() < 35 {
        return Err(Refusal::NoRoom);
    }
    put_first(reading, w, p, out);
    words::clear(out, 17);
    crate::put_loss(out, 0);
    Ok(())
}
