// The lines that `foil` prints, put into a buffer; each function gives the place behind them.
#![tactic(auto)]

ghost use Rattle.std.specs.Prelude.{◌≡◌, ◌≤◌, ◌+◌, length};
ghost use Rattle.grid.specs.Bytes.{cells_in};
ghost use Rattle.step_letters.specs.Letters.{letters_of};
ghost use Rattle.text.specs.Put.{Put};
ghost use Rattle.printout.specs.Text.{refused_text, counts_text, answer_text, text_room};

use grid::{Cells, steps_of};
use squares::squares_of;
use step_letters::write_letters;
use text::{BLANK, LINE_FEED, put_byte, put_bytes, put_field, put_two};

pub fn put_refused(n: u32, out: &mut [u8]) -> usize
    requires { text_room ≤ length out.old }
    ensures { Put out.old 0 (refused_text n) out.new result }
{
    let at = put_bytes(b"refused ", out, 0);
    put_field(n, LINE_FEED, out, at)
}

fn put_counts(class: u32, cells: Cells, squares: u32, out: &mut [u8], at: usize) -> usize
    requires le_cells { 1 ≤ cells.0 }
    requires squares_in_bounds { at + length (counts_text class cells.0 squares) ≤ length out.old }
    ensures { Put out.old at (counts_text class cells.0 squares) out.new result }
{
    let next = put_two(class, cells.0, BLANK, out, at);
    let steps = steps_of(cells);
    put_two(steps.0, squares, LINE_FEED, out, next)
}

// The letters of a list of so many cells.
fn put_letters(cells: Cells, list: &[u8], out: &mut [u8], at: usize) -> usize
    requires le_cells { 1 ≤ cells.0 }
    requires cells_value { cells.0 ≡ length (cells_in list.now) }
    requires list_in_bounds { at + length (letters_of (cells_in list.now)) ≤ length out.old }
    ensures { Put out.old at (letters_of (cells_in list.now)) out.new result }
{
    write_letters(list, out, at);
    let steps = steps_of(cells);
    at + steps.0 as usize
}

// The answer for a track of so many cells.
pub fn put_answer(class: u32, cells: Cells, list: &[u8], out: &mut [u8]) -> usize
    requires le_cells { (1 ≤ cells.0) × (cells.0 ≤ 16384) }
    requires list_len_bound { length list.now ≤ 32768 }
    requires cells_value { cells.0 ≡ length (cells_in list.now) }
    requires text_room_in_bounds { text_room ≤ length out.old }
    ensures { Put out.old 0 (answer_text class (cells_in list.now)) out.new result }
{
    let a = put_bytes(b"class cells steps squares\n", out, 0);
    let b = put_counts(class, cells, squares_of(list), out, a);
    let c = put_letters(cells, list, out, b);
    put_byte(LINE_FEED, out, c)
}
