// Why a call is refused: 01, "What a refused call gives".
#![tactic(auto)]

ghost use Rattle.std.specs.Prelude.{◌≡◌};
ghost use Rattle.refusals.specs.Refusals.{number, told};

#[derive(Clone, Copy, PartialEq, Eq)]
pub enum Refusal {
    // the builtin is not in the table
    NotInTable,
    // the number of arguments is wrong
    Count,
    // a value is not well formed, its spelling is wrong, or bitcast's type is none or wrongly spelled
    IllFormed,
    // an argument alone, or bitcast's target, is of a type not taken in its place
    NotTaken,
    // each argument alone is taken, but not together
    NotTogether,
    // the two types of a bitcast have different byte sizes
    ByteSizes,
    // the lent output is shorter than the answer
    NoRoom,
}

impl From<Refusal> for u8 {
    ghost from_gives = { λ r n. n ≡ number r };

    fn from(r: Refusal) -> u8 {
        match r {
            Refusal::NotInTable => 1,
            Refusal::Count => 2,
            Refusal::IllFormed => 3,
            Refusal::NotTaken => 4,
            Refusal::NotTogether => 5,
            Refusal::ByteSizes => 6,
            Refusal::NoRoom => 8,
        }
    }
}

// The number that a caller is told: a refusal's, 0 where nothing is refused.
pub fn told(r: Result<(), Refusal>) -> u8
    ensures { result ≡ told r }
{
    match r {
        Ok(()) => 0,
        Err(refusal) => u8::from(refusal),
    }
}
