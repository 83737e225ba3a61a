// Reads behind what a buffer holds.
#![tactic(auto)]

ghost use Rattle.std.specs.Prelude.{◌+◌, ◌^◌, ◌≤◌, ◌<◌, ◌≡◌, true, length, take, drop, IfOk, OnErr};
ghost use Rattle.std.specs.Io.KnownBytes.{ReadConsumes, Consumes, Keeps, IsAtEnd};
ghost use Rattle.stream.specs.Stream.{space};
ghost use Rattle.inputs.specs.Runs.{read_of};
ghost use Rattle.inputs.specs.Turns.{Filled};

use std::io;
use std::io::Read;
use stream::{Held, Space};

// What is held after n bytes were read behind it.
fn got(h: Held, n: usize) -> Held
    requires { h.have + n < 2 ^ 64 }
    ensures { result ≡ read_of h n }
{
    Held {
        at: h.at,
        have: h.have + n,
        used: 0,
        skip: h.skip,
        last: n == 0,
        reads: false,
        done: false,
    }
}

// One read behind the first `have` bytes, which stay; answers how many came.
fn read_behind<R: Read>(input: &mut R, buf: &mut [u8], have: usize) -> io::Result<usize>
    requires { have ≤ length buf.old }
    ensures fits { IfOk result (λ n. have + n ≤ length buf.old) }
    ensures same_length { length buf.new ≡ length buf.old }
    ensures stays { take have buf.new ≡ take have buf.old }
    ensures bytes { ReadConsumes (R.remaining input.old) (R.remaining input.new) result (drop have buf.new) }
{
    input.read(&mut buf[have..])
}

// One read behind what is held. There is room, so that reading nothing means the end of the input. Where the read fails, what is held stays, and nothing is read.
pub fn refill<R: Read>(input: &mut R, buf: &mut Space, h: Held) -> io::Result<Held>
    requires { (h.at ≤ h.have) × (h.have < space) }
    ensures ok { IfOk result (λ r. Filled buf.old h buf.new r) }
    ensures bytes { IfOk result (λ r. (f : Filled buf.old h buf.new r) × Consumes (R.remaining input.old) (R.remaining input.new) f.more) }
    ensures end { IfOk result (λ r. r.last ≡ true → IsAtEnd (R.remaining input.new)) }
    ensures err { OnErr result (take h.have buf.new ≡ take h.have buf.old) }
    ensures err_bytes { OnErr result (Keeps (R.remaining input.old) (R.remaining input.new)) }
{
    let n = read_behind(input, buf, h.have)?;
    Ok(got(h, n))
}

// Reads until the memory is full or the input ends; answers how many bytes came.
pub fn fill<R: Read>(input: &mut R, buf: &mut [u8]) -> io::Result<usize>
    ensures fits { IfOk result (λ n. n ≤ length buf.new) }
    ensures same_length { length buf.new ≡ length buf.old }
    ensures bytes { IfOk result (λ n. Consumes (R.remaining input.old) (R.remaining input.new) (take n buf.new)) }
    ensures end { IfOk result (λ n. n < length buf.new → IsAtEnd (R.remaining input.new)) }
{
    let mut have = 0;
    while have < buf.len() {
        let n = read_behind(input, buf, have)?;
        if n == 0 {
            return Ok(have);
        }
        have += n;
    }
    Ok(have)
}
