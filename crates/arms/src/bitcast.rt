// bitcast: of four lanes, by the widths of both types' lanes.
ghost use Rattle.std.specs.Prelude.{◌≡◌, ◌≤◌, eqb, length, get_or};
ghost use Rattle.values.specs.Value.{empty_value};
ghost use Rattle.calls.specs.Table.{takes};
ghost use Rattle.calls.specs.Program.{types_of, judged_in, First};
ghost use Rattle.arms.specs.Program.{is_half, outcome};

use crate::{Outcome, given};
use calls::Builtin;
use calls::table::Shape;
use judging::tests::casting;
use places::{known, scalar_at};
use readings::Reading;
use values::Scalar;

fn is_half(s: Scalar) -> bool
    ensures { result ≡ is_half s }
{
    match s {
        Scalar::Boolean => false,
        Scalar::I32 => false,
        Scalar::U32 => false,
        Scalar::F32 => false,
        Scalar::F16 => true,
    }
}

pub fn bitcast(w: &[u64], n: u64, p: u64, set: u64, x: [u32; 4]) -> Outcome
    requires { First w.now p × (set ≡ types_of (takes Builtin.Bitcast)) × (3 ≤ length w.now) }
    ensures { result ≡ outcome Reading.Crate Builtin.Bitcast (eqb (judged_in Shape.Casting set n w.now) 0) (get_or w.now 2 0) p x empty_value empty_value }
{
    let t = known(w[2]);
    let from = is_half(scalar_at(p));
    let to = is_half(scalar_at(t));
    given(casting(w, n, p, set), t, moves::recast(from, to, x))
}
