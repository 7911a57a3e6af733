// A step of a list of cells, seen on one of its sides, and the detour there.
ghost use Rattle.std.specs.Prelude.{◌≡◌, ◌+◌, ◌≤◌, length};
ghost use Rattle.grid.specs.Bytes.{InBytes, cells_in};
ghost use Rattle.detour.specs.Detour.{left_of, cell_beside, cell_no};

use detour::Side;
use grid::Cell;
use list::cell_at;

// The cell beside c, left of the way from a to b. One that is over the left or the upper edge has a 0.
fn left_of(a: Cell, b: Cell, c: Cell) -> Cell
    requires { InBytes a × InBytes b × InBytes c }
    ensures { result ≡ left_of a b c }
{
    Cell {
        x: (c.x + b.y).saturating_sub(a.y),
        y: (c.y + a.x).saturating_sub(b.x),
    }
}

// The cell at a place of the list.
pub fn cell_no(list: &[u8], place: usize) -> Cell
    requires { (1 ≤ place) × (place ≤ length (cells_in list.now)) }
    ensures { (result ≡ cell_no (cells_in list.now) place) × InBytes result }
{
    cell_at(list, 2 * (place - 1))
}

// A step, and the side that is looked at.
#[derive(Clone, Copy)]
pub struct Step {
    pub from: Cell,
    pub to: Cell,
    pub side: Side,
    ghost from_bytes: { InBytes from },
    ghost to_bytes: { InBytes to },
}

impl Step {
    // The step between the cells at two places of the list.
    pub fn between(list: &[u8], from: usize, to: usize, side: Side) -> Step
        requires first { (1 ≤ from) × (from ≤ length (cells_in list.now)) }
        requires second { (1 ≤ to) × (to ≤ length (cells_in list.now)) }
        ensures first { result.from ≡ cell_no (cells_in list.now) from }
        ensures second { result.to ≡ cell_no (cells_in list.now) to }
        ensures beside { result.side ≡ side }
    {
        Step {
            from: cell_no(list, from),
            to: cell_no(list, to),
            side,
        }
    }

    fn beside(self, c: Cell) -> Cell
        requires { InBytes c }
        ensures { result ≡ cell_beside self.side self.from self.to c }
    {
        match self.side {
            Side::Left => left_of(self.from, self.to, c),
            Side::Right => left_of(self.to, self.from, c),
        }
    }

    // The first cell of the detour.
    pub fn beside_from(self) -> Cell
        ensures { result ≡ cell_beside self.side self.from self.to self.from }
    {
        self.beside(self.from)
    }

    // The second.
    pub fn beside_to(self) -> Cell
        ensures { result ≡ cell_beside self.side self.from self.to self.to }
    {
        self.beside(self.to)
    }
}
