// Reads one order from standard input and writes the layer of a longest track to standard output.
#![tactic(auto)]

use line_input::read_line;
use std::io;

// The input's buffer is as long as foil's: one byte more than any good line. A line that fills it is
// refused.
fn main(rt: HostRuntime) -> io::Result<()> {
    let mut input = [0u8; 78];
    let n = read_line(&mut rt.stdin(), &mut input)?;
    let mut text = [0u8; 442422];
    let k = plot::answer(&input[..n], &mut text);
    rt.write_all(&text[..k])
}
