// The plans as code: each function gives the plan of its name in the crate plan (specs/Plan.antt).
#![tactic(auto)]

ghost use Rattle.std.specs.Prelude.{◌≡◌, ◌≤◌};
ghost use Rattle.plan.specs.Leg.{cell, forth, back};
ghost use Rattle.plan.specs.Plan.{split, bridge, wrap, round, zigzag, middle};
ghost use Rattle.plan.specs.Small.{SmallOrder};

use crate::motions::reverse_leg;
use grid::Cell;
use plan::{Leg, Plan};

pub mod motions;

pub use motions::Motion;

fn cell(x: u32, y: u32) -> Cell
    ensures { result ≡ cell x y }
{
    Cell { x, y }
}

// The leg from the corner a to the cell t, b being the opposite corner.
pub fn forth(a: Cell, b: Cell, t: Cell) -> Leg
    ensures { result ≡ forth a b t }
{
    Leg {
        a,
        b,
        t,
        back: false,
    }
}

// The same leg, walked from t to a.
pub fn back(a: Cell, b: Cell, t: Cell) -> Leg
    ensures { result ≡ back a b t }
{
    reverse_leg(forth(a, b, t))
}

// Two blocks, columns 1 to c and c + 1 to m, joined in row j, which is 1 or n.
#[tactic(auto, unfolding(plan::specs::Plan::split))]
pub fn split(m: u32, n: u32, s: Cell, t: Cell, c: u32, j: u32) -> Plan
    requires n_bound { n ≤ 128 }
    requires c_bound { c ≤ 130 }
    ensures { result ≡ split m n s t c j }
{
    let far = (n + 1).saturating_sub(j);
    Plan::Two(
        back(cell(c, j), cell(1, far), s),
        forth(cell(c + 1, j), cell(m, far), t),
    )
}

// The rows from 3 on split after column c, joined by rows 1 and 2.
#[tactic(auto, unfolding(plan::specs::Plan::bridge))]
pub fn bridge(m: u32, n: u32, s: Cell, t: Cell, c: u32) -> Plan
    requires { c ≤ 130 }
    ensures { result ≡ bridge m n s t c }
{
    Plan::Three(
        back(cell(1, 3), cell(c, n), s),
        forth(cell(1, 2), cell(m, 1), cell(m, 2)),
        forth(cell(m, 3), cell(c + 1, n), t),
    )
}

// Once around t, the right neighbour of s.
#[tactic(auto, unfolding(plan::specs::Plan::wrap))]
pub fn wrap(m: u32, n: u32, s: Cell, t: Cell) -> Plan
    requires { SmallOrder m n s t }
    ensures { result ≡ wrap m n s t }
{
    let up = s.y.saturating_sub(1);
    Plan::Five(
        forth(s, cell(1, 1), cell(s.x, 1)),
        forth(cell(s.x + 1, 1), cell(m, up), cell(m, up)),
        forth(cell(m, s.y), cell(s.x + 2, n), cell(s.x + 2, s.y + 2)),
        back(cell(s.x + 1, s.y + 1), cell(1, n), cell(s.x + 1, s.y + 2)),
        forth(t, t, t),
    )
}

// Three rows: the columns from x to far, entered in row r and left in row q.
#[tactic(auto, unfolding(plan::specs::Plan::round))]
pub fn round(x: u32, far: u32, r: u32, q: u32) -> Leg
    ensures { result ≡ round x far r q }
{
    if r == 2 {
        return back(cell(x, q), cell(far, 4_u32.saturating_sub(q)), cell(x, r));
    }
    forth(cell(x, r), cell(far, 4_u32.saturating_sub(r)), cell(x, q))
}

// Three rows, all different: along s's row, around on the right, back in the row r, around on the
// left, along t's row.
#[tactic(auto, unfolding(plan::specs::Plan::zigzag))]
pub fn zigzag(m: u32, s: Cell, t: Cell, r: u32) -> Plan
    requires { SmallOrder m 3 s t }
    ensures { result ≡ zigzag m s t r }
{
    let below_t = cell(t.x, s.y);
    let below_s = cell(s.x, r);
    Plan::Five(
        forth(s, below_t, below_t),
        round(t.x + 1, m, s.y, r),
        forth(cell(t.x, r), below_s, below_s),
        round(s.x.saturating_sub(1), 1, r, t.y),
        forth(cell(s.x, t.y), t, t),
    )
}

// Three rows: two blocks joined in row 2.
#[tactic(auto, unfolding(plan::specs::Plan::middle))]
pub fn middle(m: u32, s: Cell, t: Cell) -> Plan
    ensures { result ≡ middle m s t }
{
    Plan::Two(
        forth(s, cell(1, 4_u32.saturating_sub(s.y)), cell(s.x, 2)),
        back(t, cell(m, 4_u32.saturating_sub(t.y)), cell(t.x, 2)),
    )
}
