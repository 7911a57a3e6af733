// Draw: a longest track between two cells, which is the cell itself where they are equal, else from the
// table of the 3 by 3 panel or as a plan of corner tracks.
#![tactic(auto)]

ghost use Rattle.std.specs.Prelude.{◌≡◌, ℕ};
ghost use Rattle.grid.specs.Panel.{panel};
ghost use Rattle.list.specs.List.{with_cells};
ghost use Rattle.plan.specs.Leg.{legs};
ghost use Rattle.plan.specs.Drawing.{Room, Written};
ghost use Rattle.table.specs.Order.{ReadyOrder};
ghost use Rattle.draw.specs.Track.{is_three, track_between, drawn_track};
ghost use Rattle.draw.specs.Draw.{Roomy, Draws, draw_buffer};

use grid::{Cell, Cells, Order, Refusal, ensure};
use legs::draw_legs;
use list::put_cell;
use plan::Plan;

// Gives the number of cells written.
fn draw_plan(p: Plan, buf: &mut [u8]) -> Cells
    requires { Room (legs p) buf.old }
    ensures { Written (legs p) result buf.old buf.new }
{
    match p {
        Plan::One(g) => draw_legs(&[g], buf),
        Plan::Two(g, h) => draw_legs(&[g, h], buf),
        Plan::Three(g, h, i) => draw_legs(&[g, h, i], buf),
        Plan::Five(g, h, i, j, k) => draw_legs(&[g, h, i, j, k], buf),
    }
}

// Whether the panel is 3 by 3, whose tracks stand in the table.
fn is_three(width: u32, height: u32) -> bool
    ensures { result ≡ is_three width height }
{
    width == 3 && height == 3
}

// Draws a longest track between two different cells, where there is room for it. Like all that
// chooses and draws, it is given the sides and no pitch: one track serves every panel of these sides.
fn draw_longest(width: u32, height: u32, s: Cell, t: Cell, buf: &mut [u8])
    requires { (pitch : ℕ) → ReadyOrder (panel width height pitch) s t buf.old }
    ensures { buf.new ≡ with_cells (track_between width height s t) buf.old }
{
    if is_three(width, height) {
        table::draw_small(s, t, buf);
        return;
    }
    let chosen = choice::plan_of(width, height, s, t);
    draw_plan(chosen, buf);
}

// The same between any two cells.
fn draw_track(width: u32, height: u32, s: Cell, t: Cell, buf: &mut [u8])
    requires { (pitch : ℕ) → Roomy (panel width height pitch) s t buf.old }
    ensures { buf.new ≡ with_cells (drawn_track width height s t) buf.old }
{
    if s == t {
        put_cell(buf, 0, s);
        return;
    }
    draw_longest(width, height, s, t, buf);
}

// The call.
pub fn draw(o: Order, buf: &mut [u8]) -> Result<Cells, Refusal>
    ensures draws { Draws o.panel o.entry o.exit buf.old buf.new result }
    ensures cells { buf.new ≡ draw_buffer o.panel o.entry o.exit buf.old }
{
    o.check()?;
    let found = class::order_class_count(o);
    let cells = found.count;
    ensure(2 * (cells.0 as usize) <= buf.len(), Refusal::ShortBuffer)?;
    draw_track(o.panel.width, o.panel.height, o.entry, o.exit, buf);
    Ok(cells)
}
