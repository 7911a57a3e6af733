// One order line in, a longest track drawn for it, and the text that `foil` prints out, on slices.
#![tactic(auto)]

ghost use Rattle.std.specs.Prelude.{Some};
ghost use Rattle.order.specs.Line.{line_in};
ghost use Rattle.order.specs.Order.{DrawsLine, Answers};

use count::ClassCount;
use grid::{Order, Panel, Refusal};
use printout::{put_answer, put_refused};

mod read;

pub use read::read_line;

// What a line comes to that is not refused: the panel, with class and count of the track drawn.
#[derive(Clone, Copy, Debug, PartialEq, Eq)]
pub struct Drawing {
    pub panel: Panel,
    pub found: ClassCount,
}

// Bytes enough for the cells of any track, and for the text of any order.
pub const CELLS: usize = 32768;

pub const TEXT: usize = 16512;

// Draws where Bound refuses nothing.
fn draw_order(o: Order, cells: &mut [u8; CELLS]) -> Result<Drawing, Refusal>
    ensures { DrawsLine (Some o) result cells.new }
{
    let found = bound::bound(o)?;
    let _cells = draw::draw(o, cells); // as many, since the buffer holds any track
    Ok(Drawing {
        panel: o.panel,
        found,
    })
}

// Draws a longest track for the order in a line, at the front of the buffer.
pub fn draw_line(input: &[u8], cells: &mut [u8; CELLS]) -> Result<Drawing, Refusal>
    ensures { DrawsLine (line_in input.now) result cells.new }
{
    let order = read_line(input).ok_or(Refusal::UnknownByte)?;
    draw_order(order, cells)
}

// The text for an input, at the front of the buffer, and its number of bytes.
pub fn answer(input: &[u8], out: &mut [u8; TEXT]) -> usize
    ensures { Answers input.now out.old out.new result }
{
    let mut cells = [0; CELLS];
    match draw_line(input, &mut cells) {
        Err(r) => put_refused(u32::from(r), out),
        Ok(d) => {
            let end = 2 * (d.found.count.0 as usize);
            put_answer(d.found.class, d.found.count, &cells[..end], out)
        }
    }
}
