// Legs drawn at the front of a lent buffer, one after the other: each next drawing gets the part of
// the same buffer from twice the cells so far onward.
#![tactic(auto)]

ghost use Rattle.std.specs.Prelude.{◌≤◌, length, [], ◌∷◌};
ghost use Rattle.plan.specs.Drawing.{Room, Written};

use corner::{corner_track, corner_track_back};
use grid::Cells;
use plan::Leg;

// Gives the number of cells written.
fn draw_leg(g: Leg, buf: &mut [u8]) -> Cells
    requires { Room (g ∷ []) buf.old }
    ensures { Written (g ∷ []) result buf.old buf.new }
{
    if g.back {
        return corner_track_back(g.a, g.b, g.t, buf);
    }
    corner_track(g.a, g.b, g.t, buf)
}

// Draws the legs, each behind the ones before, and gives the number of cells written.
pub fn draw_legs(legs: &[Leg], buf: &mut [u8]) -> Cells
    requires few { length legs.now ≤ 5 }
    requires room { Room legs.now buf.old }
    ensures { Written legs.now result buf.old buf.new }
{
    let mut cells: u32 = 0;
    for leg in legs {
        let start = 2 * (cells as usize);
        let k = draw_leg(*leg, &mut buf[start..]);
        cells += k.0;
    }
    Cells(cells)
}
