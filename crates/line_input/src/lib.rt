// Reads one line, or all of an input, into a lent buffer, for the programs that take orders or cases from
// standard input.
#![tactic(auto)]

ghost use Rattle.std.specs.Prelude.{◌≡◌, ◌+◌, ◌≤◌, length, IfOk};

use std::io;
use std::io::Read;

// Reads once, behind the first n bytes, and gives the number of bytes read, or the input's own error.
fn read_more(input: &mut impl Read, bytes: &mut [u8], n: usize) -> io::Result<usize>
    requires { n ≤ length bytes.old }
    ensures within { IfOk result (λ k. n + k ≤ length bytes.new) }
    ensures kept { length bytes.new ≡ length bytes.old }
{
    input.read(&mut bytes[n..])
}

// Reads until what was read is enough, the end of the input, or a full buffer, however the input is cut
// into pieces, and gives the number of bytes read.
fn read_until<F: Fn(&[u8]) -> bool>(
    input: &mut impl Read,
    bytes: &mut [u8],
    is_enough: F,
) -> io::Result<usize>
    requires { F.IsAlwaysCallable is_enough }
    ensures within { IfOk result (λ n. n ≤ length bytes.new) }
    ensures kept { length bytes.new ≡ length bytes.old }
{
    let mut n = 0;
    while n < bytes.len() && !is_enough(&bytes[..n]) {
        let more = read_more(input, bytes, n)?;
        if more == 0 {
            break;
        }
        n += more;
    }
    Ok(n)
}

// Reads until a line feed, the end of the input, or a full buffer, however the input is cut into
// pieces, and gives the number of bytes read. The only error is the input's own; the buffer keeps its
// length then too, with any bytes in it.
pub fn read_line(input: &mut impl Read, bytes: &mut [u8]) -> io::Result<usize>
    ensures within { IfOk result (λ n. n ≤ length bytes.new) }
    ensures kept { length bytes.new ≡ length bytes.old }
{
    read_until(input, bytes, |read| read.contains(&b'\n'))
}

// Reads until the end of the input or a full buffer, and gives the number of bytes read. The only error is
// the input's own; the buffer keeps its length then too, with any bytes in it.
pub fn read_full(input: &mut impl Read, bytes: &mut [u8]) -> io::Result<usize>
    ensures within { IfOk result (λ n. n ≤ length bytes.new) }
    ensures kept { length bytes.new ≡ length bytes.old }
{
    read_until(input, bytes, |_| false)
}
