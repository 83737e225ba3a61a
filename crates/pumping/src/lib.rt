// Prints the answer of each line that a reader brings, in the reading that the program chooses.
#![tactic(auto)]

ghost use Rattle.std.specs.Prelude.{◌-◌, ◌≤◌, ◌<◌, cond, ◌≡◌, true, length, take, IfOk, OnOk, OnErr};
ghost use Rattle.std.specs.Io.KnownBytes.{Keeps, Appends, Consumes, IsAtEnd};
ghost use Rattle.buffers.specs.Memory.{put};
ghost use Rattle.stream.specs.Stream.{step_lines, text_of, step_of, buffer_of};
ghost use Rattle.inputs.specs.Turns.{Turn, turn_read, Pumped};
ghost use Rattle.pumping.specs.Piped.{Piped, Stopped};

use readings::Reading;
use std::io;
use std::io::{Read, Write};
use stream::{Held, Space};

// Writes the first `used` bytes.
fn print<W: Write>(output: &mut W, out: &[u8], used: usize) -> io::Result<()>
    requires { used ≤ length out.now }
    ensures { OnOk result (Appends (W.contents output.old) (W.contents output.new) (take used out.now)) }
{
    output.write_all(&out[0..used])
}

// A step, its answers written, and more read where it asks for that.
fn turn<R: Read, W: Write>(
    reading: Reading,
    input: &mut R,
    output: &mut W,
    buf: &mut Space,
    out: &mut Space,
    h: Held,
) -> io::Result<Held>
    ensures text { out.new ≡ put out.old 0 (text_of reading step_lines buf.old h) }
    ensures ok { IfOk result (λ r. (t : Turn reading step_lines buf.old h buf.new r) × Consumes (R.remaining input.old) (R.remaining input.new) (turn_read t)) }
    ensures written { OnOk result (Appends (W.contents output.old) (W.contents output.new) (text_of reading step_lines buf.old h)) }
    ensures end { IfOk result (λ r. (h.last ≡ true → IsAtEnd (R.remaining input.old)) → r.last ≡ true → IsAtEnd (R.remaining input.new)) }
    ensures err { OnErr result (let r = step_of reading step_lines buf.old h in take r.have buf.new ≡ take r.have (buffer_of reading step_lines buf.old h)) }
    ensures err_bytes { OnErr result (Keeps (R.remaining input.old) (R.remaining input.new)) }
{
    let r = stream::step(reading, buf, out, h);
    print(output, out, r.used)?;
    if r.reads {
        return refilling::refill(input, buf, r);
    }
    Ok(r)
}

fn turns_left(done: bool, turns: u64) -> u64
    requires { 0 < turns }
    ensures { (result < turns) × (result ≡ cond done 0 (turns - 1)) }
{
    if done { 0 } else { turns - 1 }
}

// Turn after turn until all is done. A read or a write that fails ends it. No `for` over the turns: it was tried, and asks for the same facts at both of its ends.
pub fn pump<R: Read, W: Write>(
    reading: Reading,
    input: &mut R,
    output: &mut W,
    buf: &mut Space,
    out: &mut Space,
) -> io::Result<()>
    ensures ok { OnOk result (Pumped reading buf.old buf.new) }
    ensures piped { OnOk result (Piped reading buf.old buf.new (R.remaining input.old) (R.remaining input.new) (W.contents output.old) (W.contents output.new)) }
    ensures err { OnErr result (Stopped reading buf.old buf.new (R.remaining input.old) (R.remaining input.new)) }
{
    let mut h = stream::start();
    let mut turns = u64::MAX;
    while turns > 0 {
        h = turn(reading, input, output, buf, out, h)?;
        turns = turns_left(h.done, turns);
    }
    Ok(())
}
