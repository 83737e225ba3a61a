// A whole material in one call, as records: each call is handed by value to the single fold. materials' specs/Materials says what it gives.
#![tactic(auto)]

ghost use Rattle.std.specs.Prelude.{◌≡◌, length};
ghost use Rattle.refusals.specs.Refusals.{told};
ghost use Rattle.materials.specs.Materials.{refusal_all, results_of};

use builtins::Answer;
use calls::Call;
use engines::Engine;
use readings::Reading;
use refusals::Refusal;

// Folds every call, in the reading and by the engine that the caller chooses once for all. Where there are fewer results than calls it leaves every one as found.
pub fn fold_all_in(
    reading: Reading,
    engine: Engine,
    calls: &[Call],
    results: &mut [Answer],
) -> Result<(), Refusal>
    ensures { (told result ≡ refusal_all (length calls.now) (length results.old))
        × (results.new ≡ results_of reading calls.now results.old) }
{
    if results.len() < calls.len() {
        return Err(Refusal::NoRoom);
    }
    for (k, call) in calls.iter().enumerate() {
        results[k] = records::fold_in(reading, engine, *call);
    }
    Ok(())
}

// In the crate's reading, by arithmetic.
pub fn fold_all(calls: &[Call], results: &mut [Answer]) -> Result<(), Refusal>
    ensures { (told result ≡ refusal_all (length calls.now) (length results.old))
        × (results.new ≡ results_of Reading.Crate calls.now results.old) }
{
    fold_all_in(Reading::Crate, Engine::Arithmetic, calls, results)
}
