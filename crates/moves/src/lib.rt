// Lanes that are moved and not worked on: those of select and bitcast, four of 32 bits, and the columns of a matrix. 01: "select, transpose and bitcast keep all bits".
#![tactic(auto)]

pub mod matrix;

ghost use Rattle.std.specs.Prelude.{◌≡◌};
ghost use Rattle.values.specs.Program.{four3};
ghost use Rattle.moves.specs.Moves.{select_lane};
ghost use Rattle.moves.specs.Program.{halved, paired, paired_lane, recast};

fn select_lane(f: u32, t: u32, c: u32) -> u32
    ensures { result ≡ select_lane f t c }
{
    if c == 0 { f } else { t }
}

pub fn select_four(f: [u32; 4], t: [u32; 4], c: [u32; 4]) -> [u32; 4]
    ensures { result ≡ four3 select_lane f t c }
{
    std::array::from_fn(|i| select_lane(f[i], t[i], c[i]))
}

// ---- bitcast: a lane of 32 bits is two of 16, the low half first

fn halved(x: [u32; 4]) -> [u32; 4]
    ensures { result ≡ halved x }
{
    [
        x[0] % 0x1_0000,
        x[0] / 0x1_0000,
        x[1] % 0x1_0000,
        x[1] / 0x1_0000,
    ]
}

fn paired_lane(low: u32, high: u32) -> u32
    ensures { result ≡ paired_lane low high }
{
    low % 0x1_0000 + 0x1_0000 * (high % 0x1_0000)
}

fn paired(x: [u32; 4]) -> [u32; 4]
    ensures { result ≡ paired x }
{
    [paired_lane(x[0], x[1]), paired_lane(x[2], x[3]), 0, 0]
}

// Four lanes as lanes of the other width; `from` and `to` say which are of 16 bits.
pub fn recast(from: bool, to: bool, x: [u32; 4]) -> [u32; 4]
    ensures { result ≡ recast from to x }
{
    match (from, to) {
        (true, false) => paired(x),
        (false, true) => halved(x),
        (true, true) | (false, false) => x,
    }
}
