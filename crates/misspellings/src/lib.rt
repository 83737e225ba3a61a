// Which field of a line is wrongly spelled, what is wrong with it and where, worked out once a line is known to have such a field.
#![tactic(auto)]

ghost use Rattle.std.specs.Prelude.{◌≡◌, ◌+◌, ◌≤◌, length};
ghost use Rattle.fields.specs.Fields.{field_at};
ghost use Rattle.misspellings.specs.Misspellings.{misspelled, type_fault, value_fault, field_fault, in_line, line_fault};

// A refusal, 9 to 11, and its place from 1; 0 and 0 where nothing is wrong.
#[derive(Clone, Copy)]
pub struct Misspelling {
    pub refusal: u8,
    pub place: usize,
}

pub fn misspelled(refusal: u8, place: usize) -> Misspelling
    ensures { result ≡ misspelled refusal place }
{
    Misspelling { refusal, place }
}

// ---- a field

pub fn type_fault(s: &[u8]) -> Misspelling
    ensures { result ≡ type_fault s.now }
{
    if typenames::type_of(s) == 0 {
        misspelled(9, 1)
    } else {
        misspelled(0, 0)
    }
}

fn value_fault(s: &[u8]) -> Misspelling
    ensures { result ≡ value_fault s.now }
{
    let f = faults::fault_in(s);
    misspelled(faults::fault_number(f.fault), f.place)
}

// What is wrong with a field, a type where `cast` and else a value.
fn field_fault(cast: bool, s: &[u8]) -> Misspelling
    ensures { result ≡ field_fault cast s.now }
{
    if cast { type_fault(s) } else { value_fault(s) }
}

// ---- a line

// A field's fault in the line, where the field's first byte stands at `at`.
pub fn in_line(at: usize, m: Misspelling) -> Misspelling
    requires { (at + m.place ≤ 1000) × (1 ≤ at) }
    ensures { result ≡ in_line at m }
{
    misspelled(m.refusal, at + m.place - 1)
}

// What is wrong with the first argument of a line that is wrongly spelled; its name ends at `end`, and the first argument is a type where `cast`. Each turn starts at the tab before an argument.
pub fn line_fault(line: &[u8], end: usize, cast: bool) -> Misspelling
    requires { (length line.now ≤ 400) × (end ≡ length (field_at line.now 0)) }
    ensures { result ≡ line_fault cast line.now }
{
    let mut tab = end;
    let mut typed = cast;
    // No `for`: a turn takes a whole field, and the place of the next tab is what the fault is told by.
    while tab < line.len() {
        let rest = &line[tab + 1..];
        let n = buffers::find(rest, b'\t');
        let m = field_fault(typed, &rest[0..n]);
        if m.refusal != 0 {
            return in_line(tab + 2, m);
        }
        typed = false;
        tab += n + 1;
    }
    misspelled(0, 0)
}
