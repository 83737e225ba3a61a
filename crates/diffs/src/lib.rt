// How two listings differ: the kind of each line, and the first line that differs as it stands in its listing.
#![tactic(auto)]

ghost use Rattle.std.specs.Prelude.{◌≡◌, cond, ◌+◌, ◌≤◌, length};
ghost use Rattle.buffers.specs.Memory.{put};
ghost use Rattle.diffs.specs.Diffs.{both_refusal, compared_in, kinds_in, first_difference};
ghost use Rattle.diffs.specs.Places.{difference_at, kinds_from, place_at, same_at, told_place, place_from, first_place, listing_of};

use choosing::choose;
use kinds::Difference;
use listings::Judged;

// What became of two listings: the refusal, 0 where there is none, and then how many lines the longer one has.
// No Result: the clauses of compare_listings and diff_number name refusal and count, which C reads as one number.
#[derive(Clone, Copy)]
pub struct Compared {
    pub refusal: u8,
    pub count: usize,
}

#[derive(Clone, Copy)]
pub enum Side {
    Left,
    Right,
}

// A line of one of two listings, by its place in it.
#[derive(Clone, Copy)]
pub struct Place {
    pub side: Side,
    pub at: usize,
    pub len: usize,
}

// ---- refusals

// Of what is found of the two listings.
fn both_refusal(left: Judged, right: Judged) -> u8
    ensures { result ≡ both_refusal left right }
{
    let long = (left.refusal == 15) | (right.refusal == 15);
    let good = (left.refusal == 0) & (right.refusal == 0);
    choose(long, 15, choose(good, 0, 14))
}

// The refusal and the count of lines, where the lent memory has that much room.
fn judge_both(left: &[u8], right: &[u8], room: usize) -> Compared
    ensures { result ≡ compared_in room left.now right.now }
{
    let l = listings::judge_listing(left);
    let r = listings::judge_listing(right);
    let refusal = both_refusal(l, r);
    let count = l.count.max(r.count);
    if refusal != 0 {
        return Compared { refusal, count: 0 };
    }
    if room < count {
        return Compared {
            refusal: 8,
            count: 0,
        };
    }
    Compared { refusal: 0, count }
}

// ---- the kinds

// How the lines that start at these places differ; one that is not there is missing.
fn difference_at(left: &[u8], i: usize, right: &[u8], j: usize) -> Difference
    ensures { result ≡ difference_at left.now i right.now j }
{
    let l = i < left.len();
    let r = j < right.len();
    if l & r {
        return kinds::line_kind(listings::line_at(left, i), listings::line_at(right, j));
    }
    if l | r {
        return Difference::Missing;
    }
    Difference::Alike
}

// The kinds of the first n lines.
fn put_kinds(left: &[u8], right: &[u8], kinds: &mut [u8], n: usize)
    requires { n ≤ length kinds.old }
    ensures { kinds.new ≡ put kinds.old 0 (kinds_from n left.now 0 right.now 0) }
{
    let mut i: usize = 0;
    let mut j: usize = 0;
    for k in 0..n {
        kinds[k] = kinds::kind_number(difference_at(left, i, right, j));
        i = listings::next_at(left, i);
        j = listings::next_at(right, j);
    }
}

// The kind of each line, by its number: 0 for lines that are the same. Listings that are refused leave the memory as it was, and so does an
// answer past its last line.
pub fn compare_listings(left: &[u8], right: &[u8], kinds: &mut [u8]) -> Compared
    ensures { (result ≡ compared_in (length kinds.old) left.now right.now)
        × (kinds.new ≡ put kinds.old 0 (kinds_in (length kinds.old) left.now right.now)) }
{
    let c = judge_both(left, right, kinds.len());
    if c.refusal == 0 {
        put_kinds(left, right, kinds, c.count);
    }
    c
}

// ---- the first difference

// The line of a listing that starts at a place.
fn place_at(side: Side, listing: &[u8], at: usize) -> Place
    ensures { result ≡ place_at side listing.now at }
{
    let len = listings::line_at(listing, at).len();
    Place { side, at, len }
}

// Whether both listings have a line at these places, and the same.
fn same_at(left: &[u8], i: usize, right: &[u8], j: usize) -> bool
    ensures { result ≡ same_at left.now i right.now j }
{
    let same = buffers::same(listings::line_at(left, i), listings::line_at(right, j));
    (i < left.len()) & (j < right.len()) & same
}

// Of the lines at these places, which are not the same.
#[tactic(auto, unfolding(crate::specs::Places::told_place))]
fn told_place(left: &[u8], i: usize, right: &[u8], j: usize) -> Option<Place>
    ensures { result ≡ told_place left.now i right.now j }
{
    if j < right.len() {
        return Some(place_at(Side::Right, right, j));
    }
    if i < left.len() {
        return Some(place_at(Side::Left, left, i));
    }
    None
}

// The first line that is not the same in both. No `for`: two places go on until the lines differ, and nothing is counted.
fn place_from(left: &[u8], right: &[u8]) -> Option<Place>
    ensures { result ≡ place_from (length left.now + length right.now) left.now 0 right.now 0 }
{
    let mut i: usize = 0;
    let mut j: usize = 0;
    while same_at(left, i, right, j) {
        i = listings::next_at(left, i);
        j = listings::next_at(right, j);
    }
    told_place(left, i, right, j)
}

// Where it stands, if anywhere: the line of the right listing, or of the one that goes on where the other has ended.
pub fn first_place(left: &[u8], right: &[u8]) -> Option<Place>
    ensures { result ≡ first_place left.now right.now }
{
    let l = listings::judge_listing(left);
    let r = listings::judge_listing(right);
    if both_refusal(l, r) != 0 {
        return None;
    }
    place_from(left, right)
}

// The listing on a side.
fn listing_of<'a>(side: Side, left: &'a [u8], right: &'a [u8]) -> &'a [u8]
    ensures { result.now ≡ listing_of side left.now right.now }
{
    match side {
        Side::Left => left,
        Side::Right => right,
    }
}

// The first line that differs, as it stands in its listing, without its newline; an empty part where none differs or a listing is refused.
pub fn first_difference<'a>(left: &'a [u8], right: &'a [u8]) -> &'a [u8]
    ensures { result.now ≡ first_difference left.now right.now }
{
    match first_place(left, right) {
        Some(p) => {
            let listing = listing_of(p.side, left, right);
            &listing[p.at..p.at + p.len]
        }
        None => &left[0..0],
    }
}
