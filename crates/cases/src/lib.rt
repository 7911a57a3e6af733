// The cases of document 01's "Class and count", each by itself: F1, F2* and F3 are equated with the tests
// of those names in the crate `count`; C2 without F3, C0 and C1 are one sum of colours. The terminals s and t
// are the order's entry and exit.
#![tactic(auto)]

ghost use Rattle.std.specs.Prelude.{◌≡◌, cond, not, ◌&&◌, ◌≤◌, ◌+◌, ◌-◌, ◌%◌};
ghost use Rattle.grid.specs.Panel.{max_side, black};
ghost use Rattle.count.specs.Count.{odd, is_end, f1, f2, f2_count, f3_apart, f3};
ghost use Rattle.count.specs.ByColour.{by_colour};
ghost use Rattle.cases.specs.Placed.{Placed};

use count::ClassCount;
use grid::{Cell, Cells, Order, area_of};

// Whether a cell is black; the sum of any two coordinates may not fit, its parity does.
pub fn is_black(c: Cell) -> bool
    ensures { result ≡ black c }
{
    (c.x % 2 + c.y % 2) % 2 == 1
}

pub fn is_odd(k: u32) -> bool
    ensures { result ≡ odd k }
{
    k % 2 == 1
}

// Whether a is the first or the last of k.
pub fn is_end(k: u32, a: u32) -> bool
    ensures { result ≡ is_end k a }
{
    a == 1 || a == k
}

#[tactic(auto, unfolding(count::specs::Count::f1))]
pub fn is_f1(o: Order) -> bool
    ensures { result ≡ f1 o.panel o.entry o.exit }
{
    let width = o.panel.width;
    o.panel.height == 1 && !(is_end(width, o.entry.x) && is_end(width, o.exit.x))
}

#[tactic(auto, unfolding(count::specs::Count::f2))]
pub fn is_f2(o: Order) -> bool
    requires { o.entry.x ≤ max_side }
    ensures { result ≡ f2 o.panel o.entry o.exit }
{
    let (s, t) = (o.entry, o.exit);
    o.panel.height == 2 && (s.x == t.x || s.x + 1 == t.x && s.y != t.y)
}

// The cells on one side of the terminals in two rows, or on the other, whichever is more.
pub fn f2_count(o: Order) -> u32
    requires { Placed o.panel o.entry o.exit }
    ensures { result ≡ f2_count o.panel.width (o.entry.x + o.exit.x) }
{
    let sum = o.entry.x + o.exit.x;
    let rest = 2 * o.panel.width - sum + 2;
    if sum < rest { rest } else { sum }
}

fn black_to_white(s: Cell, t: Cell) -> bool
    ensures { result ≡ (black s && not (black t)) }
{
    is_black(s) && !is_black(t)
}

// The x differ by 2 or more, or by 1 with both in row 2.
fn f3_apart(s: Cell, t: Cell) -> bool
    requires { s.x ≤ max_side }
    ensures { result ≡ f3_apart s t }
{
    s.x + 2 <= t.x || s.x + 1 == t.x && s.y == 2 && t.y == 2
}

#[tactic(auto, unfolding(count::specs::Count::f3))]
pub fn is_f3(o: Order) -> bool
    requires { o.entry.x ≤ max_side }
    ensures { result ≡ f3 o.panel o.entry o.exit }
{
    o.panel.height == 3
        && !is_odd(o.panel.width)
        && black_to_white(o.entry, o.exit)
        && f3_apart(o.entry, o.exit)
}

// The cells lost to the colours: if mn is odd one for each black terminal, else one if both are alike.
fn lost(area: u32, blacks: u32) -> u32
    ensures { result ≡ cond (odd area) blacks (1 - blacks % 2) }
{
    if is_odd(area) { blacks } else { 1 - blacks % 2 }
}

// The classes 3, 4 and, F3 aside, 5 lose 0, 1 and 2 cells. A sum and no tests: on random orders a jump
// by colour would be mispredicted half of the time.
pub fn by_colour(o: Order) -> ClassCount
    requires { Placed o.panel o.entry o.exit }
    ensures { result ≡ by_colour o.panel o.entry o.exit }
{
    let area = area_of(o.panel) as u32;
    let blacks = (o.entry.x + o.entry.y) % 2 + (o.exit.x + o.exit.y) % 2;
    let k = lost(area, blacks);
    ClassCount {
        class: 3 + k,
        count: Cells(area - k),
    }
}
