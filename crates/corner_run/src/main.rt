// Draws the corner track of every rectangle up to 7 by 7, from every corner to every cell, forwards and
// backwards, looks at the cells by a check that knows nothing of how they were drawn, and prints how many
// tracks and cells there were and how many tracks were wrong. The rectangles begin at column 2 and row 3.
#![tactic(auto)]

ghost use Rattle.std.specs.Prelude.{◌≤◌};
ghost use Rattle.corner.specs.Corner.{Inside};
ghost use Rattle.corner.specs.Drawn.{InBytes};

use corner::{corner_count, corner_track, corner_track_back};
use grid::{Cell, Order, panel_of};
use std::io;
use trial::PITCH;
use trial::cells::{filled, is_track};
use trial::print::{named, text};

// What the buffers are filled with.
const FILL: u8 = 7;

#[derive(Clone, Copy)]
struct Tally {
    tracks: u32,
    cells: u32,
    wrong: u32,
}

impl Tally {
    fn count(&mut self, cells: u32, fine: bool) {
        self.tracks = self.tracks.wrapping_add(1);
        self.cells = self.cells.wrapping_add(cells);
        self.wrong = self.wrong.wrapping_add(u32::from(!fine));
    }
}

// A rectangle from column 2 and row 3 to column `right` and row `bottom`.
#[derive(Clone, Copy)]
struct Rectangle {
    right: u32,
    bottom: u32,
    ghost narrow: { right ≤ 8 },
    ghost low: { bottom ≤ 9 },
}

impl Rectangle {
    // Whether the buffer begins with k cells from s to t, a track in the rectangle, and the bytes behind
    // them are as they were.
    fn is_good(self, buf: &[u8], k: u32, s: Cell, t: Cell) -> bool {
        let o = Order {
            panel: panel_of(self.right, self.bottom, PITCH),
            entry: s,
            exit: t,
        };
        is_track(buf, o, Cell { x: 2, y: 3 }, k) && filled(buf, 2 * (k as usize), FILL)
    }

    // One corner a, opposite corner b and target t: the track there and back.
    fn draw(self, a: Cell, b: Cell, t: Cell, sum: &mut Tally)
        requires { InBytes a × InBytes b × Inside a b t }
    {
        let k = corner_count(a, b, t).0;
        if 64 < k {
            sum.count(0, false);
            return;
        }
        let mut there = [FILL; 128];
        corner_track(a, b, t, &mut there);
        sum.count(k, self.is_good(&there, k, a, t));
        let mut back = [FILL; 128];
        corner_track_back(a, b, t, &mut back);
        sum.count(k, self.is_good(&back, k, t, a));
    }

    // Every corner, to the cell (x, y).
    fn draw_corners(self, x: u32, y: u32, sum: &mut Tally)
        requires across { (2 ≤ x) × (x ≤ self.right) }
        requires down { (3 ≤ y) × (y ≤ self.bottom) }
    {
        let t = Cell { x, y };
        let nw = Cell { x: 2, y: 3 };
        let ne = Cell {
            x: self.right,
            y: 3,
        };
        let sw = Cell {
            x: 2,
            y: self.bottom,
        };
        let se = Cell {
            x: self.right,
            y: self.bottom,
        };
        self.draw(nw, se, t, sum);
        self.draw(ne, sw, t, sum);
        self.draw(sw, ne, t, sum);
        self.draw(se, nw, t, sum);
    }

    // Every corner, to every cell.
    fn draw_all(self, sum: &mut Tally) {
        for y in 3..=self.bottom {
            for x in 2..=self.right {
                self.draw_corners(x, y, sum);
            }
        }
    }
}

// Every rectangle.
fn every() -> Tally {
    let mut sum = Tally {
        tracks: 0,
        cells: 0,
        wrong: 0,
    };
    for bottom in 3..=9 {
        for right in 2..=8 {
            Rectangle { right, bottom }.draw_all(&mut sum);
        }
    }
    sum
}

fn main(rt: HostRuntime) -> io::Result<()> {
    let sum = every();
    named(&rt, b"tracks ", sum.tracks)?;
    named(&rt, b"\ncells ", sum.cells)?;
    named(&rt, b"\nwrong ", sum.wrong)?;
    text(&rt, b"\n")
}
