// Writes the text of `order::answer` for all of standard input, or for its first 256 bytes. It reads to the
// end and looks for no line feed: .ci/foil holds `foil`, which stops early, to what is written here.
#![tactic(auto)]

ghost use Rattle.std.specs.Prelude.{◌+◌, ◌≤◌, length, IfOk};

use std::io;
use std::io::Read;

// Reads once, behind the first n bytes. It and the loop below are `line_input`'s again on purpose: `foil` is
// compared with a program that has none of its reading.
fn read_on(input: &mut impl Read, bytes: &mut [u8], n: usize) -> io::Result<usize>
    requires { n ≤ length bytes.old }
    ensures { IfOk result (λ k. n + k ≤ length bytes.new) }
{
    input.read(&mut bytes[n..])
}

// Reads until the end of the input or a full buffer, and gives the number of bytes read.
fn read_all(input: &mut impl Read, bytes: &mut [u8]) -> io::Result<usize>
    ensures { IfOk result (λ n. n ≤ length bytes.new) }
{
    let mut n = 0;
    while n < bytes.len() {
        let more = read_on(input, bytes, n)?;
        if more == 0 {
            return Ok(n);
        }
        n += more;
    }
    Ok(n)
}

fn main(rt: HostRuntime) -> io::Result<()> {
    let mut input = [0u8; 256];
    let n = read_all(&mut rt.stdin(), &mut input)?;
    let mut text = [0u8; 16512];
    let k = order::answer(&input[..n], &mut text);
    rt.write_all(&text[..k])
}
