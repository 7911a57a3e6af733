// The scratch of a panel: a byte for each of its cells, row by row, where a cell that was met is marked.
#![tactic(auto)]

ghost use Rattle.std.specs.Prelude.{◌≡◌, true, ◌≤◌, length};
ghost use Rattle.grid.specs.Panel.{good_sides, area, on_panel};
ghost use Rattle.scratch.specs.Scratch.{place, zeros_for, cleared};

use grid::{Cell, Panel};

// The place of a cell of the panel.
pub fn place_of(p: Panel, c: Cell) -> usize
    requires on { on_panel p c ≡ true }
    requires good { good_sides p ≡ true }
    ensures { result ≡ place p c }
{
    (c.y as usize - 1) * (p.width as usize) + (c.x as usize - 1)
}

// Writes 0 at the first places.
pub fn clear_front(places: usize, scratch: &mut [u8])
    requires { places ≤ length scratch.old }
    ensures { scratch.new ≡ zeros_for places scratch.old }
{
    scratch[..places].fill(0);
}

// Writes 0 at every place of the panel.
pub fn clear(p: Panel, scratch: &mut [u8])
    requires { area p ≤ length scratch.old }
    ensures { scratch.new ≡ cleared p scratch.old }
{
    clear_front(grid::area_of(p), scratch);
}
