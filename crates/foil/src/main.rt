// Reads one order from standard input and writes the answer to standard output.
#![tactic(auto)]

use line_input::read_line;
use std::io;

// The buffer has one byte more than any good line: seven numbers of ten digits, six blanks, a line
// feed. A line that fills it is refused.
fn main(rt: HostRuntime) -> io::Result<()> {
    let mut input = [0u8; 78];
    let n = read_line(&mut rt.stdin(), &mut input)?;
    let mut text = [0u8; 16512];
    let k = order::answer(&input[..n], &mut text);
    rt.write_all(&text[..k])
}
