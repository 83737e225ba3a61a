// A line's fields.
#![tactic(auto)]

ghost use Rattle.std.specs.Prelude.{◌≡◌, ◌+◌, ◌≤◌, cond, drop};
ghost use Rattle.fields.specs.Fields.{field_at, argument_count};

// The k-th field of a line, counted from 0: the part between its tabs, and the empty part where it is missing.
pub fn field(line: &[u8], k: usize) -> &[u8]
    ensures { result.now ≡ field_at line.now k }
{
    let mut at: usize = 0;
    for passed in 0..k {
        let n = buffers::find(&line[at..], b'\t');
        if n == line.len() - at {
            return &line[0..0];
        }
        at += n + 1;
    }
    let end = at + buffers::find(&line[at..], b'\t');
    &line[at..end]
}

// What follows a first field of n bytes and its tab: the empty part where there is no tab.
pub fn after(t: &[u8], n: usize) -> &[u8]
    ensures { result.now ≡ drop (n + 1) t.now }
{
    if n < t.len() { &t[n + 1..] } else { &t[0..0] }
}

// 1 where a test holds, 0 where it fails: std has no `From<bool>` for numbers.
pub fn one_if(test: bool) -> usize
    ensures { (result ≡ cond test 1 0) × (result ≤ 1) }
{
    if test { 1 } else { 0 }
}

// How many arguments a line has: as many as tabs.
pub fn argument_count(line: &[u8]) -> usize
    ensures { result ≡ argument_count line.now }
{
    // As `filter` and `count` it is a loop with a branch at each byte; so it is done by four bytes at once.
    let mut n: usize = 0;
    for b in line {
        n += one_if(*b == b'\t');
    }
    n
}
