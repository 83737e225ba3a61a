// The reading by which a call is folded: the crate's, or the text's, in which the packers of norm lanes and of clamped integer lanes are as the specification writes them (Q-1).
#![tactic(auto)]

ghost use Rattle.std.specs.Prelude.{◌≡◌};
ghost use Rattle.readings.specs.Readings.{Names, reading_at};

#[derive(Clone, Copy)]
pub enum Reading {
    Crate,
    Text,
}

// A number that is no reading's.
#[derive(Clone, Copy)]
pub struct NoReading(pub u64);

impl TryFrom<u64> for Reading {
    type Error = NoReading;

    ghost try_from_gives = { Names };

    fn try_from(n: u64) -> Result<Self, NoReading> {
        match n {
            0 => Ok(Reading::Crate),
            1 => Ok(Reading::Text),
            _ => Err(NoReading(n)),
        }
    }
}

// The same of every number: one that is no reading's gives the crate's. It stays beside the conversion, since it never failed.
pub fn reading_at(n: u64) -> Reading
    ensures { result ≡ reading_at n }
{
    Reading::try_from(n).unwrap_or(Reading::Crate)
}
