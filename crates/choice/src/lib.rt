// Which plan a longest track is drawn by: each function gives what the definition of its name in the
// crate plan (specs/Plan.antt) does.
#![tactic(auto)]

ghost use Rattle.std.specs.Prelude.{◌≡◌, cond, ltb, ◌≤◌, ◌+◌, ◌-◌, eqb};
ghost use Rattle.grid.specs.Panel.{turned_cell};
ghost use Rattle.plan.specs.declared.Plan.{Plan};
ghost use Rattle.plan.specs.Leg.{cell, reversed_plan, moved_plan};
ghost use Rattle.plan.specs.Plan.{moving, left_first, split, wrap, zigzag, bridge, steep, third};
ghost use Rattle.plan.specs.Plan.{two_rows, three_rows_apart, three_rows, wrapped, inner_split, edge_split};
ghost use Rattle.plan.specs.Plan.{at_edge, bridged, four_rows, wide, plan_of};
ghost use Rattle.plan.specs.Small.{SmallOrder};
ghost use Rattle.shapes.specs.declared.motions.Motion.TheVariants.{MirrorX, MirrorY};
ghost use Rattle.shapes.specs.Motion.{moved_cell};

use grid::Cell;
use plan::Plan;
use shapes::motions::{Motion, reverse_plan};
use shapes::{back, bridge, forth, middle, split, wrap, zigzag};
use terminals::{crossing, is_corner, is_critical, is_free, is_odd, is_steep};

// The sides of a panel and two cells of it, so small that no sum of them is too large.
#[derive(Clone, Copy)]
struct Ends {
    m: u32,
    n: u32,
    s: Cell,
    t: Cell,
    ghost small: { SmallOrder m n s t },
}

impl Ends {
    ghost use Rattle.choice.specs.declared.Ends.{Ends};
    ghost use Rattle.choice.specs.Ends.{Fits, Moved, Exchanged, LeftFirst};

    // ---- plans by way of others

    fn mirror_x(self) -> Motion
        ensures is { result ≡ MirrorX (self.m + 1) }
        ensures fits { Fits result }
    {
        Motion::MirrorX(self.m + 1)
    }

    fn mirror_y(self) -> Motion
        ensures is { result ≡ MirrorY (self.n + 1) }
        ensures fits { Fits result }
    {
        Motion::MirrorY(self.n + 1)
    }

    fn moved(self, k: Motion) -> Ends
        requires { Fits k }
        ensures { Moved k self result }
    {
        let (m, n) = match k {
            Motion::Turn => (self.n, self.m),
            Motion::MirrorX(_) | Motion::MirrorY(_) => (self.m, self.n),
        };
        Ends {
            m,
            n,
            s: k.cell(self.s),
            t: k.cell(self.t),
        }
    }

    fn exchanged(self) -> Ends
        ensures { Exchanged self result }
    {
        Ends {
            m: self.m,
            n: self.n,
            s: self.t,
            t: self.s,
        }
    }

    // The terminals named so that the first is not right of the second.
    fn ordered(self) -> Ends
        ensures { LeftFirst self result }
    {
        if self.t.x < self.s.x {
            return self.exchanged();
        }
        self
    }

    // A plan of the ordered terminals, walked from s.
    fn from_s(self, p: Plan) -> Plan
        ensures { result ≡ cond (ltb self.t.x self.s.x) (reversed_plan p) p }
    {
        if self.t.x < self.s.x {
            return reverse_plan(p);
        }
        p
    }

    // The plan that is given for the moved terminals, moved back.
    fn moving<F: FnOnce(Ends) -> Plan>(self, k: Motion, plan: F) -> Plan
        requires fits { Fits k }
        requires callable { F.IsAlwaysCallable plan }
        ensures { (e : Ends) × (p : Plan) × Moved k self e × F.post plan e p × (result ≡ moved_plan (moved_cell k) p) }
    {
        k.plan(plan(self.moved(k)))
    }

    // The plan that is given for the ordered terminals, walked from s.
    fn left_first<F: FnOnce(Ends) -> Plan>(self, plan: F) -> Plan
        requires { F.IsAlwaysCallable plan }
        ensures { (e : Ends) × (p : Plan) × LeftFirst self e × F.post plan e p × (result ≡ cond (ltb self.t.x self.s.x) (reversed_plan p) p) }
    {
        self.from_s(plan(self.ordered()))
    }

    // ---- the plans of shapes

    fn split(self, c: u32, j: u32) -> Plan
        requires { c ≤ 130 }
        ensures { result ≡ split self.m self.n self.s self.t c j }
    {
        split(self.m, self.n, self.s, self.t, c, j)
    }

    fn bridge(self, c: u32) -> Plan
        requires { c ≤ 130 }
        ensures { result ≡ bridge self.m self.n self.s self.t c }
    {
        bridge(self.m, self.n, self.s, self.t, c)
    }

    fn wrap(self) -> Plan
        ensures { result ≡ wrap self.m self.n self.s self.t }
    {
        wrap(self.m, self.n, self.s, self.t)
    }

    fn zigzag(self, r: u32) -> Plan
        ensures { result ≡ zigzag self.m self.s self.t r }
    {
        zigzag(self.m, self.s, self.t, r)
    }

    // ---- the choice

    #[tactic(auto, unfolding(plan::specs::Plan::two_rows))]
    fn two_rows(self) -> Plan
        requires { self.n ≡ 2 }
        ensures { result ≡ two_rows self.m self.s self.t }
    {
        let Cell { x, y } = self.s;
        let other = 3_u32.saturating_sub(y);
        if y == self.t.y || x + 1 < self.t.x {
            return self.split(x, other);
        }
        if self.m < x + self.t.x {
            let beside = 3_u32.saturating_sub(self.t.y);
            return Plan::One(back(self.t, Cell { x: 1, y: beside }, self.s));
        }
        Plan::One(forth(
            self.s,
            Cell {
                x: self.m,
                y: other,
            },
            self.t,
        ))
    }

    fn third(self) -> u32
        ensures { result ≡ third self.s self.t }
    {
        6_u32.saturating_sub(self.s.y + self.t.y)
    }

    #[tactic(auto, unfolding(plan::specs::Plan::three_rows_apart))]
    fn three_rows_apart(self) -> Plan
        requires { self.n ≡ 3 }
        ensures { result ≡ three_rows_apart self.m self.s self.t }
    {
        if is_steep(self.s, self.t) {
            return self.zigzag(self.third());
        }
        let x = self.s.x;
        let free = is_free(x, 1, self.s, self.t);
        self.split(x, if free { 1 } else { 3 })
    }

    #[tactic(auto, unfolding(plan::specs::Plan::three_rows))]
    fn three_rows(self) -> Plan
        requires { self.n ≡ 3 }
        ensures { result ≡ three_rows self.m self.s self.t }
    {
        if !is_critical(self.m, self.s, self.t) {
            return self.three_rows_apart();
        }
        if self.s.x == self.t.x {
            let r = self.third();
            return self.moving(self.mirror_x(), |e| e.zigzag(r));
        }
        if !is_odd(self.s.x) && self.s.x + 1 == self.t.x {
            return middle(self.m, self.s, self.t);
        }
        self.three_rows_apart()
    }

    // A wrap, mirrored in y where there is no room for it below.
    #[tactic(auto, unfolding(plan::specs::Plan::wrapped))]
    fn wrapped(self) -> Plan
        ensures { result ≡ wrapped self.m self.n self.s self.t }
    {
        let y = self.s.y;
        let flips = if is_odd(self.n) {
            y + 1 == self.n
        } else {
            is_odd(y)
        };
        if flips {
            return self.moving(self.mirror_y(), |e| e.wrap());
        }
        self.wrap()
    }

    #[tactic(auto, unfolding(plan::specs::Plan::inner_split))]
    fn inner_split(self) -> Plan
        ensures { result ≡ inner_split self.m self.n self.s self.t }
    {
        let c = if self.s.x < 2 { 2 } else { self.s.x };
        self.split(c, crossing(self.n, self.s, self.t, c))
    }

    // s in column 1, t in column 2, t below s: split by rows, over the last column.
    #[tactic(auto, unfolding(plan::specs::Plan::edge_split))]
    fn edge_split(self) -> Plan
        ensures { result ≡ edge_split self.m self.n self.s self.t }
    {
        let row = self.s.y;
        let last = self.m;
        self.moving(Motion::Turn, |e| e.split(row, last))
    }

    #[tactic(auto, unfolding(plan::specs::Plan::at_edge))]
    fn at_edge(self) -> Plan
        ensures { result ≡ at_edge self.m self.n self.s self.t }
    {
        if self.s.y == self.t.y {
            return self.wrapped();
        }
        if self.t.y < self.s.y {
            return self.moving(self.mirror_y(), |e| e.edge_split());
        }
        self.edge_split()
    }

    // A split by rows: the inner split of the turned panel.
    fn turned_split(self) -> Plan
        ensures { result ≡ moving turned_cell (inner_split self.n self.m) self.s self.t }
    {
        self.moving(Motion::Turn, |e| e.inner_split())
    }

    // m even, n odd, s black, t white.
    #[tactic(auto, unfolding(plan::specs::Plan::bridged))]
    fn bridged(self, c: u32) -> Plan
        requires { c ≤ 130 }
        ensures { result ≡ bridged self.m self.n self.s self.t c }
    {
        let Ends { n, s, t, .. } = self;
        if 3 <= s.y && 3 <= t.y {
            return self.bridge(c);
        }
        if s.y + 2 <= n && t.y + 2 <= n {
            return self.moving(self.mirror_y(), |e| e.bridge(c));
        }
        if s.y < t.y {
            return self.turned_split();
        }
        reverse_plan(self.exchanged().turned_split())
    }

    // Four rows or more, s left of t and no further from it in rows than in columns.
    #[tactic(auto, unfolding(plan::specs::Plan::four_rows))]
    fn four_rows(self) -> Plan
        ensures { result ≡ four_rows self.m self.n self.s self.t }
    {
        let Ends { m, n, s, t } = self;
        if t.x == 2 {
            return self.at_edge();
        }
        if s.x + 1 == m {
            // As at the left edge of the mirrored panel, from t to s.
            return self.moving(self.mirror_x(), |e| reverse_plan(e.exchanged().at_edge()));
        }
        if !is_odd(n) || !is_critical(m, s, t) {
            return self.inner_split();
        }
        if s.x + 1 == t.x && is_odd(s.x) {
            return self.wrapped();
        }
        self.bridged(s.x + s.x % 2)
    }

    // The cell across the panel from a corner of it.
    fn across(self, c: Cell) -> Cell
        ensures { result ≡ cell (self.m + 1 - c.x) (self.n + 1 - c.y) }
    {
        Cell {
            x: (self.m + 1).saturating_sub(c.x),
            y: (self.n + 1).saturating_sub(c.y),
        }
    }

    // m not less than n, s not right of t, three rows or more, and no terminal in a corner.
    fn inner(self) -> Plan
        ensures { let e = self in result ≡ cond (eqb e.n 3) (three_rows e.m e.s e.t) (cond (steep e.s e.t) (moving turned_cell (left_first (four_rows e.n e.m)) e.s e.t) (four_rows e.m e.n e.s e.t)) }
    {
        if self.n == 3 {
            return self.three_rows();
        }
        if is_steep(self.s, self.t) {
            // Turned, the terminals are no further apart in rows than in columns.
            return self.moving(Motion::Turn, |e| e.left_first(|d| d.four_rows()));
        }
        self.four_rows()
    }

    // m not less than n, s not right of t.
    #[tactic(auto, unfolding(plan::specs::Plan::wide))]
    fn wide(self) -> Plan
        ensures { result ≡ wide self.m self.n self.s self.t }
    {
        let Ends { m, n, s, t } = self;
        if n == 1 {
            return Plan::One(forth(s, t, t));
        }
        if n == 2 {
            return self.two_rows();
        }
        if is_corner(m, n, s) {
            return Plan::One(forth(s, self.across(s), t));
        }
        if is_corner(m, n, t) {
            return Plan::One(back(t, self.across(t), s));
        }
        self.inner()
    }
}

#[tactic(auto, unfolding(plan::specs::Plan::plan_of))]
pub fn plan_of(m: u32, n: u32, s: Cell, t: Cell) -> Plan
    requires { SmallOrder m n s t }
    ensures { result ≡ plan_of m n s t }
{
    let ends = Ends { m, n, s, t };
    if m < n {
        return ends.moving(Motion::Turn, |e| e.left_first(|d| d.wide()));
    }
    ends.left_first(|e| e.wide())
}
