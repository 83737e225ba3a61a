// Answers as one number each, for programs that link the library: a refusal, or how much there is of an answer.
#![tactic(auto)]

ghost use Rattle.std.specs.Prelude.{◌≡◌, ◌+◌, ◌<◌, ◌≤◌, IfSome};
ghost use Rattle.numbers.specs.Number.{told_number, refusal_or_count, line_number, read_number, written_number, sort_number, diff_number, side_number, place_number};

use answers::LineAnswer;
use diffs::{Compared, Place, Side};
use losses::Converted;
use reading::ReadInto;
use sorting::Sorted;
use writing::Written;

fn refusal_or_count(refusal: u8, n: usize) -> u64
    requires { n < 4294967296 }
    ensures { result ≡ refusal_or_count refusal n }
{
    (refusal as u64) * 0x1_0000_0000 + n as u64
}

pub fn told_number(c: Converted) -> u32
    ensures { result ≡ told_number c }
{
    u8::from(c.loss) as u32 * 0x1_0000 + c.half as u32
}

pub fn line_number(a: LineAnswer) -> u64
    requires { a.len + a.place < 4294967296 }
    ensures { result ≡ line_number a }
{
    refusal_or_count(a.refusal, a.len + a.place)
}

pub fn read_number(a: ReadInto) -> u64
    requires { a.place < 4294967296 }
    ensures { result ≡ read_number a }
{
    refusal_or_count(a.refusal, a.place)
}

pub fn written_number(w: Written) -> u64
    requires { w.len < 4294967296 }
    ensures { result ≡ written_number w }
{
    refusal_or_count(w.refusal, w.len)
}

pub fn sort_number(s: Sorted) -> u64
    requires { s.count < 4294967296 }
    ensures { result ≡ sort_number s }
{
    refusal_or_count(s.refusal, s.count)
}

pub fn diff_number(c: Compared) -> u64
    requires { c.count < 4294967296 }
    ensures { result ≡ diff_number c }
{
    refusal_or_count(c.refusal, c.count)
}

fn side_number(s: Side) -> u64
    ensures { (result ≡ side_number s) × (result ≤ 2) }
{
    match s {
        Side::Left => 1,
        Side::Right => 2,
    }
}

pub fn place_number(p: Option<Place>) -> u64
    requires { IfSome p (λ q. (q.at < 65536) × (q.len < 65536)) }
    ensures { result ≡ place_number p }
{
    match p {
        Some(Place { side, at, len }) => {
            side_number(side) * 0x1_0000_0000 + (at as u64) * 0x1_0000 + len as u64
        }
        None => 0,
    }
}
