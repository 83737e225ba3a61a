// The engine by which a call is folded: arithmetic, or tables, by which the two 8-bit norm formats do without a float operation in the crate's reading (Q-11). What a call gives is the same.
#![tactic(auto)]

ghost use Rattle.std.specs.Prelude.{◌≡◌};
ghost use Rattle.engines.specs.Engines.{Names, engine_at};

#[derive(Clone, Copy)]
pub enum Engine {
    Arithmetic,
    Tables,
}

// A number that is no engine's.
#[derive(Clone, Copy)]
pub struct NoEngine(pub u64);

impl TryFrom<u64> for Engine {
    type Error = NoEngine;

    ghost try_from_gives = { Names };

    fn try_from(n: u64) -> Result<Self, NoEngine> {
        match n {
            0 => Ok(Engine::Arithmetic),
            1 => Ok(Engine::Tables),
            _ => Err(NoEngine(n)),
        }
    }
}

// The same of every number: one that is no engine's gives arithmetic. It stays beside the conversion, since it never failed.
pub fn engine_at(n: u64) -> Engine
    ensures { result ≡ engine_at n }
{
    Engine::try_from(n).unwrap_or(Engine::Arithmetic)
}
