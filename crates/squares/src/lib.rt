// The corners of a list of cells, and its squares.
#![tactic(auto)]

ghost use Rattle.std.specs.Prelude.{◌≡◌, ◌≤◌, length};
ghost use Rattle.grid.specs.Bytes.{cells_in};
ghost use Rattle.squares.specs.Squares.{corner_between, corners, squares};

use grid::Cell;
use list::cell_at;

// Whether the cell between these two is a corner.
#[tactic(auto, unfolding(crate::specs::Squares::corner_between))]
pub fn corner_between(before: Cell, after: Cell) -> bool
    ensures { result ≡ corner_between before after }
{
    before.x != after.x && before.y != after.y
}

// The number of corners of a list of at most 16,384 cells.
pub fn corners_of(list: &[u8]) -> u32
    requires { length list.now ≤ 32768 }
    ensures { result ≡ corners (cells_in list.now) }
{
    let mut corners = 0;
    for i in 2..list.len() / 2 {
        if corner_between(cell_at(list, 2 * (i - 2)), cell_at(list, 2 * i)) {
            corners += 1;
        }
    }
    corners
}

// The squares of a list of at most 16,384 cells, in hundredths: 56 for a corner, 100 for every other cell.
pub fn squares_of(list: &[u8]) -> u32
    requires { length list.now ≤ 32768 }
    ensures { result ≡ squares (cells_in list.now) }
{
    let cells = (list.len() / 2) as u32;
    let corners = corners_of(list);
    56 * corners + 100 * (cells - corners)
}
