// One order line in, the layer of a longest track out, on slices: what the program `layer` writes.
#![tactic(auto)]

ghost use Rattle.plot.specs.Plot.{Plots};

use gerber_write::{DIGIT_ROOM, put_layer};
use order::{CELLS, draw_line};
use printout::put_refused;

// Bytes enough for the layer of any track.
pub const LAYER: usize = 442422;

// The bytes for an input, at the front of the buffer, and their number.
pub fn answer(input: &[u8], out: &mut [u8; LAYER]) -> usize
    ensures { Plots input.now out.old out.new result }
{
    let mut cells = [0; CELLS];
    match draw_line(input, &mut cells) {
        Err(r) => put_refused(u32::from(r), out),
        Ok(d) => {
            let end = 2 * (d.found.count.0 as usize);
            let mut digits = [0; DIGIT_ROOM];
            put_layer(d.panel, &cells[..end], &mut digits, out)
        }
    }
}
