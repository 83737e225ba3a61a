// Prints the answer of each line of the standard input, in the text's reading.
#![tactic(auto)]

use readings::Reading;
use std::io;
use stream::SPACE;

fn main(rt: HostRuntime) -> io::Result<()> {
    let mut buf = [0; SPACE];
    let mut out = [0; SPACE];
    pumping::pump(
        Reading::Text,
        &mut rt.stdin(),
        &mut rt.stdout(),
        &mut buf,
        &mut out,
    )
}
