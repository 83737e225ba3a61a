// The text that folddiff prints: each line that differs by its number and its kind's word, in parts, or the refusal alone.
#![tactic(auto)]

ghost use Rattle.std.specs.Prelude.{◌≡◌, ◌+◌, ◌≤◌, length};
ghost use Rattle.buffers.specs.Memory.{put};
ghost use Rattle.stream.specs.Stream.{space};
ghost use Rattle.telling.specs.Text.{number_places, word_at, kind_text, diff_part_text, diff_part_of};

use stream::Space;

// So many lines of a text are written at once.
pub const PART_LINES: usize = 4096;

// How many lines are done in all, and how many bytes the last of them took.
#[derive(Clone, Copy)]
pub struct DiffPart {
    pub done: usize,
    pub used: usize,
}

#[tactic(auto, unfolding(crate::specs::Text::number_places))]
fn places_of(v: usize) -> usize
    ensures { result ≡ number_places v }
{
    match v {
        0..=9 => 1,
        10..=99 => 2,
        100..=999 => 3,
        1000..=9999 => 4,
        _ => 5,
    }
}

// A kind's word, by its number.
fn put_word(out: &mut [u8], at: usize, kind: u8) -> usize
    requires { at + length (word_at kind) ≤ length out.old }
    ensures { (result ≡ at + length (word_at kind)) × (out.new ≡ put out.old at (word_at kind)) }
{
    match kind {
        1 => buffers::put_bytes(out, at, b"missing"),
        2 => buffers::put_bytes(out, at, b"refusal"),
        3 => buffers::put_bytes(out, at, b"type"),
        4 => buffers::put_bytes(out, at, b"value"),
        5 => buffers::put_bytes(out, at, b"nan"),
        6 => buffers::put_bytes(out, at, b"zero"),
        _ => at,
    }
}

// Line n and its kind at a place, nothing where there is none; answers the next place.
fn put_kind(out: &mut [u8], at: usize, n: usize, kind: u8) -> usize
    requires { at + length (kind_text n kind) ≤ length out.old }
    ensures { (result ≡ at + length (kind_text n kind)) × (out.new ≡ put out.old at (kind_text n kind)) }
{
    if (kind == 0) | (kind > 6) {
        return at;
    }
    let a = printing::put_digits(out, at, places_of(n), n);
    let b = printing::put_byte(out, a, 9);
    let c = put_word(out, b, kind);
    printing::put_byte(out, c, 10)
}

// The part of the text that follows the lines that are done, or the refusal alone.
// The refusal and the kinds are numbers, as C reads them from chanrelout_diff and as diff_part_text and Told have them.
pub fn diff_part(refusal: u8, kinds: &[u8], done: usize, out: &mut Space) -> DiffPart
    ensures { (result ≡ diff_part_of refusal kinds.now done) × (out.new ≡ put out.old 0 (diff_part_text refusal kinds.now done))
        × (result.used ≤ space) }
{
    if refusal != 0 {
        let e = printing::put_refusal(out, 0, refusal);
        return DiffPart {
            done: kinds.len(),
            used: printing::put_byte(out, e, 10),
        };
    }
    put_part(kinds, done, out)
}

// The next lines of kinds, from the start of the lent memory.
fn put_part(kinds: &[u8], done: usize, out: &mut [u8]) -> DiffPart
    requires { space ≤ length out.old }
    ensures { (result ≡ diff_part_of 0 kinds.now done) × (out.new ≡ put out.old 0 (diff_part_text 0 kinds.now done))
        × (result.used ≤ space) }
{
    let end = done.saturating_add(PART_LINES).min(kinds.len()).max(done);
    let mut at = 0;
    for i in done..end {
        at = put_kind(out, at, i + 1, kinds[i]);
    }
    DiffPart {
        done: end,
        used: at,
    }
}
