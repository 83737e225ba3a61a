// The spelling of a type, written; a type is its place.
#![tactic(auto)]

ghost use Rattle.std.specs.Prelude.{◌≡◌, cond, [], ◌∷◌, ◌++◌, ◌+◌, ◌≤◌, ◌<◌, length};
ghost use Rattle.values.specs.Value.{scalar_place, scalar_of, kind_at};
ghost use Rattle.buffers.specs.Text.{bytes};
ghost use Rattle.buffers.specs.Memory.{put};
ghost use Rattle.spelling.specs.Types.{scalar_text, spelled};

use choosing::choose;

fn put_byte(out: &mut [u8], at: usize, b: u8)
    requires { at < length out.old }
    ensures { out.new ≡ put out.old at (b ∷ []) }
{
    out[at] = b;
}

fn put_three(out: &mut [u8], at: usize, x: u8, y: u8, z: u8)
    requires { at + 3 ≤ length out.old }
    ensures { out.new ≡ put out.old at (x ∷ y ∷ z ∷ []) }
{
    out[at] = x;
    out[at + 1] = y;
    out[at + 2] = z;
}

// The place of the scalar of the type at p among the scalars.
fn scalar_place(p: u64) -> u64
    requires { (1 ≤ p) × (p < 39) }
    ensures { result ≡ scalar_place (scalar_of (kind_at p)) }
{
    if p < 21 {
        (p + 4) % 5
    } else {
        3 + (p - 21) / 9
    }
}

// The spelling of the scalar of the type at p, chosen without branches but for bool's; answers the next place.
fn put_scalar(out: &mut [u8], at: usize, p: u64) -> usize
    requires { (1 ≤ p) × (p < 39) × (at + length (scalar_text (scalar_of (kind_at p))) ≤ length out.old) }
    ensures { (result ≡ at + length (scalar_text (scalar_of (kind_at p)))) × (out.new ≡ put out.old at (scalar_text (scalar_of (kind_at p)))) }
{
    let c = scalar_place(p);
    if c == 0 {
        put_three(out, at, b'b', b'o', b'o');
        put_byte(out, at + 3, b'l');
        return at + 4;
    }
    let x = choose(c == 1, b'i', choose(c == 2, b'u', b'f'));
    let y = choose(c == 4, b'1', b'3');
    let z = choose(c == 4, b'6', b'2');
    put_three(out, at, x, y, z);
    at + 3
}

// The scalar of the type at p between angles; answers the next place.
fn put_angled(out: &mut [u8], at: usize, p: u64) -> usize
    requires { (1 ≤ p) × (p < 39) × (at + length (bytes "<" ++ scalar_text (scalar_of (kind_at p)) ++ bytes ">") ≤ length out.old) }
    ensures { (result ≡ at + length (bytes "<" ++ scalar_text (scalar_of (kind_at p)) ++ bytes ">")) × (out.new ≡ put out.old at (bytes "<" ++ scalar_text (scalar_of (kind_at p)) ++ bytes ">")) }
{
    put_byte(out, at, b'<');
    let e = put_scalar(out, at + 1, p);
    put_byte(out, e, b'>');
    e + 1
}

// The byte that spells a size, by its place among the sizes.
fn size_byte(n: u64) -> u8
    requires { n < 3 }
    ensures { result ≡ 50 + n }
{
    (50 + n) as u8
}

// The spelling of the type at p; answers the next place.
pub fn put_type(out: &mut [u8], at: usize, p: u64) -> usize
    requires { (1 ≤ p) × (p < 39) × (at + length (spelled (kind_at p)) ≤ length out.old) }
    ensures { (result ≡ at + length (spelled (kind_at p))) × (out.new ≡ put out.old at (spelled (kind_at p))) }
{
    if p < 6 {
        return put_scalar(out, at, p);
    }
    if p < 21 {
        put_three(out, at, b'v', b'e', b'c');
        put_byte(out, at + 3, size_byte((p - 6) / 5));
        return put_angled(out, at + 4, p);
    }
    put_three(out, at, b'm', b'a', b't');
    put_three(
        out,
        at + 3,
        size_byte((p - 21) % 9 / 3),
        b'x',
        size_byte((p - 21) % 3),
    );
    put_angled(out, at + 6, p)
}
