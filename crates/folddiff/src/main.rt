// Prints how the listings left.txt and right.txt of the folder that it is run in differ.
#![tactic(auto)]

ghost use Rattle.std.specs.Prelude.{◌≤◌, length, IfOk, IfSome};

use std::fs::File;
use std::io;
use std::io::Write;
use stream::{SPACE, Space};

// What the system says of an error, without its number.
fn words(text: &str) -> &str {
    match text.split_once(" (os error ") {
        Some((said, _)) => said,
        None => text,
    }
}

// Names a file and what the system says of it on standard error.
fn tell(rt: &HostRuntime, name: &str, error: io::Error) -> io::Result<()> {
    let text = format!(in rt.alloc(); "{error}")?;
    let said = words(&text);
    eprintln!(rt; "{name}: {said}")
}

// Reads a file, as much of it as the lent memory has room for.
fn read(rt: &HostRuntime, name: &str, buf: &mut [u8]) -> io::Result<usize>
    ensures { IfOk result (λ n. n ≤ length buf.new) }
{
    let mut file = File::open(rt, name)?;
    refilling::fill(&mut file, buf)
}

// The same, with a failure told. Where that fails too, there is nobody left to tell.
fn read_file(rt: &HostRuntime, name: &str, buf: &mut [u8]) -> Option<usize>
    ensures { IfSome result (λ n. n ≤ length buf.new) }
{
    match read(rt, name, buf) {
        Ok(n) => Some(n),
        Err(error) => {
            let _ = tell(rt, name, error).is_ok();
            None
        }
    }
}

fn print<W: Write>(output: &mut W, out: &[u8], used: usize) -> io::Result<()>
    requires { used ≤ length out.now }
{
    output.write_all(&out[0..used])
}

// Part after part, until none is left.
fn print_parts<W: Write>(
    output: &mut W,
    refusal: u8,
    kinds: &[u8],
    out: &mut Space,
) -> io::Result<()> {
    let mut done = 0;
    loop {
        let p = telling::diff_part(refusal, kinds, done, out);
        print(output, out, p.used)?;
        if p.done >= kinds.len() {
            return Ok(());
        }
        done = p.done;
    }
}

// How two listings differ. No listing has more lines than 32,768 bytes.
fn differ<W: Write>(output: &mut W, left: &[u8], right: &[u8], out: &mut Space) -> io::Result<()> {
    let mut kinds = [0; 32768];
    let c = diffs::compare_listings(left, right, &mut kinds);
    let count = c.count;
    print_parts(output, c.refusal, &kinds[0..count], out)
}

fn main(rt: HostRuntime) -> io::Result<()> {
    let mut left = [0; SPACE];
    let mut right = [0; SPACE];
    let mut out = [0; SPACE];
    let l = read_file(&rt, "left.txt", &mut left);
    let r = read_file(&rt, "right.txt", &mut right);
    if let (Some(m), Some(n)) = (l, r) {
        return differ(&mut rt.stdout(), &left[..m], &right[..n], &mut out);
    }
    Ok(())
}
