// Plans turned, mirrored and walked the other way.
ghost use Rattle.std.specs.Prelude.{◌≡◌};
ghost use Rattle.plan.specs.Leg.{moved_leg, moved_plan, reversed_leg, reversed_plan};
ghost use Rattle.shapes.specs.Motion.{moved_cell};

use grid::{Cell, turn_cell};
use plan::{Leg, Plan};

// How a plan is moved: turned, or mirrored so that x, or y, becomes the number less it.
#[derive(Clone, Copy, Debug, PartialEq, Eq)]
pub enum Motion {
    Turn,
    MirrorX(u32),
    MirrorY(u32),
}

impl Motion {
    pub fn cell(self, c: Cell) -> Cell
        ensures { result ≡ moved_cell self c }
    {
        match self {
            Motion::Turn => turn_cell(c),
            Motion::MirrorX(w) => Cell {
                x: w.saturating_sub(c.x),
                y: c.y,
            },
            Motion::MirrorY(h) => Cell {
                x: c.x,
                y: h.saturating_sub(c.y),
            },
        }
    }

    pub fn leg(self, g: Leg) -> Leg
        ensures { result ≡ moved_leg (moved_cell self) g }
    {
        Leg {
            a: self.cell(g.a),
            b: self.cell(g.b),
            t: self.cell(g.t),
            back: g.back,
        }
    }

    pub fn plan(self, p: Plan) -> Plan
        ensures { result ≡ moved_plan (moved_cell self) p }
    {
        match p {
            Plan::One(g) => Plan::One(self.leg(g)),
            Plan::Two(g, h) => Plan::Two(self.leg(g), self.leg(h)),
            Plan::Three(g, h, i) => Plan::Three(self.leg(g), self.leg(h), self.leg(i)),
            Plan::Five(g, h, i, j, k) => Plan::Five(
                self.leg(g),
                self.leg(h),
                self.leg(i),
                self.leg(j),
                self.leg(k),
            ),
        }
    }
}

pub fn reverse_leg(g: Leg) -> Leg
    ensures { result ≡ reversed_leg g }
{
    Leg { back: !g.back, ..g }
}

pub fn reverse_plan(p: Plan) -> Plan
    ensures { result ≡ reversed_plan p }
{
    match p {
        Plan::One(g) => Plan::One(reverse_leg(g)),
        Plan::Two(g, h) => Plan::Two(reverse_leg(h), reverse_leg(g)),
        Plan::Three(g, h, i) => Plan::Three(reverse_leg(i), reverse_leg(h), reverse_leg(g)),
        Plan::Five(g, h, i, j, k) => Plan::Five(
            reverse_leg(k),
            reverse_leg(j),
            reverse_leg(i),
            reverse_leg(h),
            reverse_leg(g),
        ),
    }
}
