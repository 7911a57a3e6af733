// The tests on the terminals that the choice of a plan goes by: each function gives what the definition of its
// name in the crate plan (specs/Plan.antt) does.
#![tactic(auto)]

ghost use Rattle.std.specs.Prelude.{◌≡◌, ◌≤◌};
ghost use Rattle.grid.specs.Panel.{black};
ghost use Rattle.plan.specs.Plan.{differ, critical, free, steep, corner, crossing};
ghost use Rattle.plan.specs.Small.{SmallCells};

pub use cases::is_odd;
use cases::{is_black, is_end};
use grid::Cell;

// Whether two cells differ in colour.
pub fn colours_differ(a: Cell, b: Cell) -> bool
    ensures { result ≡ differ (black a) (black b) }
{
    is_black(a) != is_black(b)
}

pub fn is_critical(m: u32, s: Cell, t: Cell) -> bool
    ensures { result ≡ critical m s t }
{
    !is_odd(m) && is_black(s) && !is_black(t)
}

pub fn is_free(c: u32, j: u32, s: Cell, t: Cell) -> bool
    requires { c ≤ 130 }
    ensures { result ≡ free c j s t }
{
    Cell { x: c, y: j } != s && Cell { x: c + 1, y: j } != t
}

pub fn is_steep(s: Cell, t: Cell) -> bool
    requires { SmallCells s t }
    ensures { result ≡ steep s t }
{
    t.x + s.y < s.x + t.y || t.x + t.y < s.x + s.y
}

pub fn is_corner(m: u32, n: u32, c: Cell) -> bool
    ensures { result ≡ corner m n c }
{
    is_end(m, c.x) && is_end(n, c.y)
}

// The row that a split after column c crosses in.
#[tactic(auto, unfolding(plan::specs::Plan::crossing))]
pub fn crossing(n: u32, s: Cell, t: Cell, c: u32) -> u32
    requires { c ≤ 130 }
    ensures { result ≡ crossing n s t c }
{
    let first = Cell { x: c, y: 1 };
    let free = if !is_odd(n) && colours_differ(s, t) {
        colours_differ(first, s)
    } else {
        is_free(c, 1, s, t)
    };
    if free { 1 } else { n }
}
