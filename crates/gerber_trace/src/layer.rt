// The steps of a reading, each at a place of the file.
ghost use Rattle.std.specs.Prelude.{◌≡◌, drop};
ghost use Rattle.grid.specs.Panel.{GoodPanel, OnPanel};
ghost use Rattle.gerber.specs.Layer.{draw};
ghost use Rattle.gerber_trace.specs.Trace.{plotted, is_centre, centred, line_at, aim_of, on_to, aimed, next_of, step_of, first_at};

use crate::{Target, Trace, is_end, third, towards};
use gerber::{HEAD, head_of, is_straight, plot_x, plot_y};
use grid::{Cell, Panel, on_panel};
use text::{read_field, text_at};

// A file that is read as the layer of a good panel.
#[derive(Clone, Copy)]
pub(crate) struct Layer<'a> {
    pub(crate) panel: Panel,
    pub(crate) file: &'a [u8],
    ghost good: { GoodPanel panel },
}

impl Layer<'_> {
    // The cell that a and b would be the centre of.
    #[tactic(auto, unfolding(crate::specs::Trace::plotted))]
    fn plotted(self, a: u32, b: u32) -> Cell
        ensures { result ≡ plotted self.entry.panel a b }
    {
        let pitch = self.panel.pitch * 1000;
        Cell {
            x: a / pitch + 1,
            y: self.panel.height.saturating_sub(b / pitch),
        }
    }

    fn is_centre(self, a: u32, b: u32, c: Cell) -> bool
        ensures { result ≡ is_centre self.entry.panel a b c }
    {
        let p = self.panel;
        on_panel(p, c) && plot_x(p, c) == a && plot_y(p, c) == b
    }

    // The cell whose centre is at a and b, if there is one; the line ends at `next`.
    fn centred(self, a: u32, b: u32, next: usize) -> Option<Target>
        ensures { aim_of self.entry.file.now result ≡ centred self.entry.panel a b (drop next self.entry.file.now) }
    {
        let cell = self.plotted(a, b);
        if self.is_centre(a, b, cell) {
            Some(Target { cell, next })
        } else {
            None
        }
    }

    // A line to a cell's centre at a place of the file, with the operation behind its D.
    fn line_at(self, operation: &[u8], at: usize) -> Option<Target>
        ensures { aim_of self.entry.file.now result ≡ line_at self.entry.panel operation.now (drop at self.entry.file.now) }
    {
        if !text_at(b"X", self.file, at) {
            return None;
        }
        let x = read_field(self.file, at + 1, b'Y')?;
        let y = read_field(self.file, x.next, b'D')?;
        if !text_at(operation, self.file, y.next) {
            return None;
        }
        self.centred(x.value, y.value, y.next + operation.len())
    }

    // On from a cell to c, if it is on the panel.
    fn on_to(self, from: Cell, c: Cell, goal: Target) -> Option<Option<Trace>>
        ensures { step_of self.entry.file.now result ≡ on_to self.entry.panel from c goal.cell (drop goal.next self.entry.file.now) }
    {
        if on_panel(self.panel, c) {
            Some(Some(Trace {
                before: from,
                at: c,
                goal: goal.cell,
                next: goal.next,
            }))
        } else {
            None
        }
    }

    // At the goal the next line leads on, in another direction.
    fn turn(self, t: Trace) -> Option<Option<Trace>>
        requires { OnPanel self.panel t.at }
        ensures { step_of self.entry.file.now result ≡ aimed self.entry.panel t.before t.at (line_at self.entry.panel draw (drop t.next self.entry.file.now)) }
    {
        let goal = self.line_at(b"01*\n", t.next)?;
        let c = towards(t.at, goal.cell);
        if is_straight(t.before, t.at, c) {
            return None;
        }
        self.on_to(t.at, c, goal)
    }

    // One cell further, or the end.
    pub(crate) fn step_on(self, t: Trace) -> Option<Option<Trace>>
        requires { OnPanel self.panel t.at }
        ensures { step_of self.entry.file.now result ≡ next_of self.entry.panel t.before t.at t.goal (drop t.next self.entry.file.now) }
    {
        if t.at != t.goal {
            let c = Cell {
                x: third(t.before.x, t.at.x),
                y: third(t.before.y, t.at.y),
            };
            let goal = Target {
                cell: t.goal,
                next: t.next,
            };
            return self.on_to(t.at, c, goal);
        }
        if is_end(self.file, t.next) {
            return Some(None);
        }
        self.turn(t)
    }

    // The line behind the head, with an operation.
    pub(crate) fn first_at(self, operation: &[u8]) -> Option<Target>
        ensures { aim_of self.entry.file.now result ≡ first_at self.entry.panel operation.now self.entry.file.now }
    {
        if !text_at(&head_of(self.panel), self.file, 0) {
            return None;
        }
        self.line_at(operation, HEAD)
    }
}
