// Prints the lines of a listing from standard input in order. More than a listing may have is never read: it is refused by then.
#![tactic(auto)]

ghost use Rattle.std.specs.Prelude.{◌≤◌};
ghost use Rattle.stream.specs.Stream.{space};

use std::io;
use std::io::Write;
use stream::{SPACE, Space};

fn print<W: Write>(output: &mut W, out: &Space, used: usize) -> io::Result<()>
    requires { used ≤ space }
{
    let all = &out[..];
    output.write_all(&all[0..used])
}

fn main(rt: HostRuntime) -> io::Result<()> {
    let mut listing = [0; SPACE];
    let mut out = [0; SPACE];
    let n = refilling::fill(&mut rt.stdin(), &mut listing)?;
    let used = sorting::print_sorted(&listing[0..n], &mut out);
    print(&mut rt.stdout(), &out, used)
}
