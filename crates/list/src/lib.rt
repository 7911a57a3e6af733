// Lists of cells, x and y for each: the cell at a place, how far two cells are apart, and what Write tests
// before its buffer.
#![tactic(auto)]

ghost use Rattle.std.specs.Prelude.{◌≡◌, ◌/◌, ◌+◌, ◌*◌, ◌<◌, ◌≤◌, length, map, get_or, set};
ghost use Rattle.grid.specs.Panel.{max_side, dist, neighbours};
ghost use Rattle.grid.specs.Bytes.{InBytes, cells_in, cell_of};
ghost use Rattle.list.specs.List.{cell_at, squared_distance, whole_cells, all_on, all_steps};
ghost use Rattle.list.specs.Check.{check_walk, check_list};

use grid::{Cell, Panel, Refusal, area_of, check_panel, ensure};

pub fn byte_at(s: &[u8], i: usize) -> u32
    requires { i < length s.now }
    ensures { (result ≡ get_or s.now i 0) × (result < 256) }
{
    s[i] as u32
}

// The cell whose x stands at i.
pub fn cell_at(list: &[u8], i: usize) -> Cell
    requires { i + 1 < length list.now }
    ensures { result ≡ cell_at list.now i }
{
    Cell {
        x: byte_at(list, i),
        y: byte_at(list, i + 1),
    }
}

// A cell in two bytes from i on.
pub fn put_cell(list: &mut [u8], i: usize, c: Cell)
    requires { (c.x ≤ max_side) × (c.y ≤ max_side) × (i + 1 < length list.old) }
    ensures { list.new ≡ set (set list.old i c.x) (i + 1) c.y }
{
    list[i] = c.x as u8;
    list[i + 1] = c.y as u8;
}

// Whether so many bytes hold cells and nothing else: not empty, and two bytes for each cell.
pub fn whole_cells(bytes: usize) -> bool
    ensures { result ≡ whole_cells bytes }
{
    1 <= bytes && bytes % 2 == 0
}

// The bytes of each cell of a list; a last byte without its partner is none.
pub fn pairs(list: &[u8]) -> &[[u8; 2]]
    ensures cells { map cell_of result.now ≡ cells_in list.now }
    ensures count { length result.now ≡ length list.now / 2 }
{
    list.as_chunks::<2>().0
}

// Whether every cell of the list is on the panel.
pub fn all_on_panel(p: Panel, list: &[u8]) -> bool
    ensures { result ≡ all_on p (cells_in list.now) }
{
    pairs(list)
        .iter()
        .all(|&pair| grid::on_panel(p, Cell::from(pair)))
}

// The square of how far two coordinates are apart.
fn square_apart(a: u32, b: u32) -> u32
    requires { (a < 256) × (b < 256) }
    ensures { result ≡ dist a b * dist a b }
{
    let d = a as i32 - b as i32;
    (d * d) as u32
}

// The square of the straight distance between two cells.
pub fn squared_distance(a: Cell, b: Cell) -> u32
    requires { InBytes a × InBytes b }
    ensures { result ≡ squared_distance a b }
{
    square_apart(a.x, b.x) + square_apart(a.y, b.y)
}

// Whether two cells are neighbours: by the square, since no branch then goes by the direction.
pub fn adjacent(a: Cell, b: Cell) -> bool
    requires { InBytes a × InBytes b }
    ensures { result ≡ neighbours a b }
{
    squared_distance(a, b) == 1
}

// Whether each two successive cells of the list are neighbours.
fn all_adjacent(list: &[u8]) -> bool
    ensures { result ≡ all_steps (cells_in list.now) }
{
    for i in 1..list.len() / 2 {
        if !adjacent(cell_at(list, 2 * (i - 1)), cell_at(list, 2 * i)) {
            return false;
        }
    }
    true
}

// 7, then 8.
fn check_walk(p: Panel, list: &[u8]) -> Result<(), Refusal>
    ensures { result ≡ check_walk p (cells_in list.now) }
{
    ensure(all_on_panel(p, list), Refusal::CellOff)?;
    ensure(all_adjacent(list), Refusal::NotNeighbours)
}

// What Write refuses whatever the buffer.
#[tactic(auto, using(crate::proofs::Cells::length_cells))]
pub fn check_list(p: Panel, list: &[u8]) -> Result<(), Refusal>
    ensures { result ≡ check_list p list.now }
{
    check_panel(p)?;
    ensure(whole_cells(list.len()), Refusal::ListLength)?;
    check_walk(p, list)?;
    ensure(list.len() / 2 <= area_of(p), Refusal::StepCount)
}
