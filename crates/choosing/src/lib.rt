// One of two things, both at hand, chosen by a test: no jump stands between them, so that many choices are worked out at once.
#![tactic(auto)]

ghost use Rattle.std.specs.Prelude.{◌≡◌, cond};

pub fn choose<T: Copy>(on: bool, a: T, b: T) -> T
    ensures { result ≡ cond on a b }
{
    if on { a } else { b }
}
