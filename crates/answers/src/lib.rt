// An answer as text: its values, written from the answer's words into lent memory.
#![tactic(auto)]

ghost use Rattle.std.specs.Prelude.{◌≡◌, ◌+◌, ◌≤◌, ◌<◌, length};
ghost use Rattle.values.specs.Value.{kind_at};
ghost use Rattle.buffers.specs.Memory.{put};
ghost use Rattle.words.specs.Words.{value_at};
ghost use Rattle.builtins.specs.declared.Answer.{Answer};
ghost use Rattle.answers.specs.Answers.{second_text, answered_in, spelled_in};
ghost use Rattle.answers.specs.Program.{Answers, second_length};

// A line's answer in lent memory: its length, or the number of the refusal and the place of a misspelling, 0 where there is none.
#[derive(Clone, Copy)]
pub struct LineAnswer {
    pub refusal: u8,
    pub len: usize,
    pub place: usize,
}

// How many bytes spell a second value of the type at p: none where there is none.
fn second_len(p: u64) -> usize
    requires { p < 39 }
    ensures { (result ≡ second_length (kind_at p)) × (result ≤ 156) }
{
    if p == 0 { 0 } else { writing::text_len(p) + 1 }
}

// A tab and the second value of an answer's words, where there is one; answers the next place.
fn put_second(out: &mut [u8], at: usize, a: &[u64]) -> usize
    requires { at + length (second_text (value_at a.now 17)) ≤ length out.old }
    ensures { (result ≡ at + length (second_text (value_at a.now 17))) × (out.new ≡ put out.old at (second_text (value_at a.now 17))) }
{
    if words::place_at(a, 17) == 0 {
        return at;
    }
    let next = buffers::put_bytes(out, at, b"\t");
    writing::put_value(out, next, a, 17)
}

// The answer whose words are a, written at the start of the lent memory; a refusal leaves the memory as it is.
pub fn put_answer(out: &mut [u8], refusal: u8, a: &[u64]) -> LineAnswer
    ensures { (x : Answer) → Answers refusal a.now x → (result ≡ answered_in (length out.old) x)
        × (out.new ≡ put out.old 0 (spelled_in (length out.old) x)) }
{
    if refusal != 0 {
        return LineAnswer {
            refusal,
            len: 0,
            place: 0,
        };
    }
    let first = writing::text_len(words::place_at(a, 0));
    if out.len() < first + second_len(words::place_at(a, 17)) {
        return LineAnswer {
            refusal: 8,
            len: 0,
            place: 0,
        };
    }
    let next = writing::put_value(out, 0, a, 0);
    let len = put_second(out, next, a);
    LineAnswer {
        refusal: 0,
        len,
        place: 0,
    }
}
