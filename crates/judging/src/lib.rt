// Which calls of words are refused, and what an arm of the fold tests.
#![tactic(auto)]

mod refuse;
pub mod tests;

ghost use Rattle.std.specs.Prelude.{◌≡◌};
ghost use Rattle.refusals.specs.Refusals.{told};
ghost use Rattle.calls.specs.Refuse.{refusal_of};
ghost use Rattle.calls.specs.Words.{call_of};

use refusals::Refusal;

// What refuses a call of words.
pub fn judge(w: &[u64]) -> Result<(), Refusal>
    ensures { told result ≡ refusal_of (call_of w.now) }
{
    let row = calls::table::entry_of(calls::builtin_at(words::word(w, 0)));
    let shape = row.shape;
    refuse::judge(w, shape, words::word(w, 1), row.set)
}
