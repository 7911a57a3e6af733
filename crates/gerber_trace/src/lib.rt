// A Gerber layer read back, cell by cell.
#![tactic(auto)]

ghost use Rattle.std.specs.Prelude.{◌≡◌, ◌*◌, ◌-◌, ◌≤◌, drop};
ghost use Rattle.grid.specs.Panel.{GoodPanel, OnPanel, max_side};
ghost use Rattle.gerber.specs.Layer.{draw};
ghost use Rattle.gerber_trace.specs.Trace.{line_at, aim_of, is_end, towards, next_of, step_of, first_at};

mod layer;

use grid::{Cell, Panel};
use layer::Layer;
use text::{bytes_from, text_at};

// Where a line leads: to a cell, and the place behind the line.
#[derive(Clone, Copy, Debug, PartialEq, Eq)]
pub struct Target {
    pub cell: Cell,
    pub next: usize,
}

// The way through a layer: the cell come from, the cell reached, the cell that the last line goes to,
// and the place behind that line.
#[derive(Clone, Copy, Debug, PartialEq, Eq)]
pub struct Trace {
    pub before: Cell,
    pub at: Cell,
    pub goal: Cell,
    pub next: usize,
}

// Whether the last line, and nothing else, is left from a place on.
pub fn is_end(file: &[u8], at: usize) -> bool
    ensures { result ≡ is_end (drop at file.now) }
{
    text_at(b"M02*\n", file, at) && bytes_from(file, at) == 5
}

// The third of three numbers with equal distances, or 0 if it is below.
fn third(a: u32, b: u32) -> u32
    requires { b ≤ max_side }
    ensures { result ≡ 2 * b - a }
{
    (2 * b).saturating_sub(a)
}

// The cell beside b towards g.
#[tactic(auto, unfolding(crate::specs::Trace::towards))]
fn towards(b: Cell, g: Cell) -> Cell
    requires { (b.x ≤ max_side) × (b.y ≤ max_side) × (1 ≤ b.y) }
    ensures { result ≡ towards b g }
{
    if b.x < g.x {
        Cell { x: b.x + 1, y: b.y }
    } else if g.x < b.x {
        Cell { x: b.x - 1, y: b.y }
    } else if b.y < g.y {
        Cell { x: b.x, y: b.y + 1 }
    } else {
        Cell { x: b.x, y: b.y - 1 }
    }
}

// What is next: another form, none; the end of the layer, a none within; or one cell further.
pub fn step_on(p: Panel, file: &[u8], t: Trace) -> Option<Option<Trace>>
    requires { (GoodPanel p) × (OnPanel p t.at) }
    ensures { step_of file.now result ≡ next_of p t.before t.at t.goal (drop t.next file.now) }
{
    Layer { panel: p, file }.step_on(t)
}

// The line behind the head, with an operation.
pub fn first_at(p: Panel, operation: &[u8], file: &[u8]) -> Option<Target>
    requires { GoodPanel p }
    ensures { aim_of file.now result ≡ first_at p operation.now file.now }
{
    Layer { panel: p, file }.first_at(operation)
}
