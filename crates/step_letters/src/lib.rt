// The step letters of a record: the letter of a step and the step of a letter, and the letters of a list.
#![tactic(auto)]

ghost use Rattle.std.specs.Prelude.{◌≡◌, ◌≤◌, ◌+◌, length};
ghost use Rattle.grid.specs.Panel.{OnPanel};
ghost use Rattle.grid.specs.Bytes.{cells_in};
ghost use Rattle.step_letters.specs.Letters.{letter, steps_of, step_by, largest_panel, with_letters};

use grid::{Cell, Refusal};
use list::cell_at;

// The letters: up, right, down, left.
pub const NORTH: u8 = 0x4E;

pub const EAST: u8 = 0x45;

pub const SOUTH: u8 = 0x53;

pub const WEST: u8 = 0x57;

#[tactic(auto, unfolding(crate::specs::Letters::letter))]
fn letter_of(a: Cell, b: Cell) -> u8
    ensures { result ≡ letter a b }
{
    if b.y < a.y {
        return NORTH;
    }
    if a.x < b.x {
        return EAST;
    }
    if a.y < b.y {
        return SOUTH;
    }
    WEST
}

// The letters of a list, into the buffer from a place on.
pub fn write_letters(list: &[u8], out: &mut [u8], from: usize)
    requires { from + steps_of (cells_in list.now) ≤ length out.old }
    ensures { out.new ≡ with_letters from (cells_in list.now) out.old }
{
    for i in 1..list.len() / 2 {
        out[from + i - 1] = letter_of(cell_at(list, 2 * (i - 1)), cell_at(list, 2 * i));
    }
}

// Where a letter leads: four lead to a cell, every other byte is refused.
#[tactic(auto, unfolding(crate::specs::Letters::known, crate::specs::Letters::stepped))]
pub fn step_by(c: Cell, letter: u8) -> Result<Cell, Refusal>
    requires { OnPanel largest_panel c }
    ensures { result ≡ step_by c letter }
{
    match letter {
        NORTH => Ok(Cell { x: c.x, y: c.y - 1 }),
        EAST => Ok(Cell { x: c.x + 1, y: c.y }),
        SOUTH => Ok(Cell { x: c.x, y: c.y + 1 }),
        WEST => Ok(Cell { x: c.x - 1, y: c.y }),
        0x00..=0x44 | 0x46..=0x4D | 0x4F..=0x52 | 0x54..=0x56 | 0x58..=0xFF => Err(
            Refusal::UnknownByte,
        ),
    }
}
