// The first refusal that applies to a call of words, by the shape of its row: values are judged where they stand.
ghost use Rattle.std.specs.Prelude.{◌≡◌, true, cond};
ghost use Rattle.refusals.specs.Refusals.{number, told};
ghost use Rattle.calls.specs.Refuse.{first_of};
ghost use Rattle.calls.specs.Program.{judged_in};

use calls::table::Shape;
use refusals::Refusal;

fn unless(holds: bool, refusal: Refusal) -> Result<(), Refusal>
    ensures { told result ≡ cond holds 0 (number refusal) }
{
    if holds { Ok(()) } else { Err(refusal) }
}

// In the order of the refusals.
fn first_of(
    counted: bool,
    formed: bool,
    alone: bool,
    together: bool,
    sized: bool,
) -> Result<(), Refusal>
    ensures { told result ≡ first_of true counted formed alone together sized }
{
    unless(counted, Refusal::Count)?;
    unless(formed, Refusal::IllFormed)?;
    unless(alone, Refusal::NotTaken)?;
    unless(together, Refusal::NotTogether)?;
    unless(sized, Refusal::ByteSizes)
}

// ---- by the shape of the row: of n arguments

fn one_value(w: &[u64], n: u64, set: u64) -> Result<(), Refusal>
    ensures { told result ≡ judged_in Shape.OneValue set n w.now }
{
    let p = words::place_at(w, 3);
    first_of(
        n == 1,
        words::formed_at(w, 3),
        places::among(set, p),
        true,
        true,
    )
}

fn two_alike(w: &[u64], n: u64, set: u64) -> Result<(), Refusal>
    ensures { told result ≡ judged_in Shape.TwoAlike set n w.now }
{
    let p = words::place_at(w, 3);
    let q = words::place_at(w, 20);
    let formed = words::formed_at(w, 3) & words::formed_at(w, 20);
    first_of(
        n == 2,
        formed,
        places::among(set, p) & places::among(set, q),
        p == q,
        true,
    )
}

fn three_alike(w: &[u64], n: u64, set: u64) -> Result<(), Refusal>
    ensures { told result ≡ judged_in Shape.ThreeAlike set n w.now }
{
    let p = words::place_at(w, 3);
    let q = words::place_at(w, 20);
    let r = words::place_at(w, 37);
    let formed = words::formed_at(w, 3) & words::formed_at(w, 20) & words::formed_at(w, 37);
    let alone = places::among(set, p) & places::among(set, q) & places::among(set, r);
    first_of(n == 3, formed, alone, (p == q) & (p == r), true)
}

fn selecting(w: &[u64], n: u64, set: u64) -> Result<(), Refusal>
    ensures { told result ≡ judged_in Shape.Selecting set n w.now }
{
    let p = words::place_at(w, 3);
    let q = words::place_at(w, 20);
    let r = words::place_at(w, 37);
    let formed = words::formed_at(w, 3) & words::formed_at(w, 20) & words::formed_at(w, 37);
    let together = (p == q) & ((r == 1) | (r == places::booleans_at(p)));
    first_of(n == 3, formed, places::among(set, r), together, true)
}

fn scaling(w: &[u64], n: u64, set: u64) -> Result<(), Refusal>
    ensures { told result ≡ judged_in Shape.Scaling set n w.now }
{
    let p = words::place_at(w, 3);
    let q = words::place_at(w, 20);
    let formed = words::formed_at(w, 3) & words::formed_at(w, 20);
    let alone = places::among(set, p) & places::among(calls::table::I32S, q);
    first_of(n == 2, formed, alone, q == places::integers_at(p), true)
}

fn casting(w: &[u64], n: u64, set: u64) -> Result<(), Refusal>
    ensures { told result ≡ judged_in Shape.Casting set n w.now }
{
    let t = places::known(words::word(w, 2));
    let p = words::place_at(w, 3);
    let formed = (t != 0) & words::formed_at(w, 3);
    let alone = places::among(set, t) & places::among(set, p);
    first_of(
        n == 2,
        formed,
        alone,
        true,
        calls::table::bytes_at(t) == calls::table::bytes_at(p),
    )
}

pub fn judge(w: &[u64], shape: Shape, n: u64, set: u64) -> Result<(), Refusal>
    ensures { told result ≡ judged_in shape set n w.now }
{
    match shape {
        Shape::Unlisted => Err(Refusal::NotInTable),
        Shape::OneValue => one_value(w, n, set),
        Shape::TwoAlike => two_alike(w, n, set),
        Shape::ThreeAlike => three_alike(w, n, set),
        Shape::Selecting => selecting(w, n, set),
        Shape::Scaling => scaling(w, n, set),
        Shape::Casting => casting(w, n, set),
    }
}
