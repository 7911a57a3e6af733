// Corner tracks: from a corner of a rectangle to any cell of it, forwards and backwards, written
// line by line into a lent buffer. Lines that go the same way are drawn in one loop.
#![tactic(auto)]

ghost use Rattle.std.specs.Prelude.{◌≡◌, false, ◌≤◌, reverse};
ghost use Rattle.grid.specs.Panel.{dist};
ghost use Rattle.line.specs.Rectangle.{ahead, turning};
ghost use Rattle.corner.specs.Corner.{Inside, track_count};
ghost use Rattle.corner.specs.Cells.{one_line, line_way, chosen, place, first_lines, peeled, corner_cells};
ghost use Rattle.corner.specs.Peel.{Measured, turned_sizes, Open, FirstLines};
ghost use Rattle.corner.specs.Drawn.{InBytes, Fits, Ready, written};

use grid::{Cell, Cells, distance};
use line::{Along, draw_sweep};

// k steps from p towards q.
#[tactic(auto, using(line::proofs::Between::dist_up, line::proofs::Between::dist_down), unfolding(line::specs::Rectangle::ahead))]
fn move_ahead(p: u32, q: u32, k: u32) -> u32
    requires { (p ≤ 255) × (k ≤ dist p q) }
    ensures { result ≡ ahead p q k }
{
    if p <= q { p + k } else { p - k }
}

// Where k lines there and back between p and q end that begin at p.
#[tactic(auto, unfolding(line::specs::Rectangle::turning))]
fn turn(k: u32, p: u32, q: u32) -> u32
    ensures { result ≡ turning k p q }
{
    if k % 2 == 0 { p } else { q }
}

// The p-th cell of the q-th row, or else of the q-th column.
fn place(along: Along, p: u32, q: u32) -> Cell
    ensures { result ≡ place along p q }
{
    along.seen(Cell { x: p, y: q })
}

// A track's first lines taken off: rows or columns of the rectangle of the corner and `far`, `cells` cells,
// which end in `end`; backwards those of the rectangle of `end` and `home`; and the rectangle that remains.
#[derive(Clone, Copy)]
struct Peeled {
    along: Along,
    far: Cell,
    end: Cell,
    home: Cell,
    cells: Cells,
    corner: Cell,
    opposite: Cell,
}

// The lines that go first: rows, or else columns, and how many.
#[derive(Clone, Copy)]
struct Lines {
    along: Along,
    count: u32,
}

const ONE_ROW: Lines = Lines {
    along: Along::Rows,
    count: 1,
};

const ONE_COLUMN: Lines = Lines {
    along: Along::Columns,
    count: 1,
};

// A rectangle of w columns and h rows, and a target dx columns and dy rows from its corner.
#[derive(Clone, Copy)]
struct Sizes {
    w: u32,
    h: u32,
    dx: u32,
    dy: u32,
}

impl Sizes {
    fn turned(self) -> Sizes
        ensures { result ≡ turned_sizes self }
    {
        Sizes {
            w: self.h,
            h: self.w,
            dx: self.dy,
            dy: self.dx,
        }
    }

    // All rows up to the one before the target's, or, in two rows, all columns up to the one before the
    // target's; else one line.
    #[tactic(auto, unfolding(crate::specs::Cells::chosen))]
    fn choose(self) -> Lines
        requires { Open self.w self.h self.dx self.dy }
        ensures { result ≡ chosen self.w self.h self.dx self.dy }
    {
        if 1 < self.dy {
            return Lines {
                along: Along::Rows,
                count: self.dy - 1,
            };
        }
        if self.dy == 0 {
            return ONE_COLUMN;
        }
        if self.h == 2 {
            if 1 < self.dx {
                return Lines {
                    along: Along::Columns,
                    count: self.dx - 1,
                };
            }
            return ONE_ROW;
        }
        if self.dx == self.w - 1 {
            return ONE_COLUMN;
        }
        ONE_ROW
    }
}

// A rectangle, by a corner and the opposite one, and a target in it.
#[derive(Clone, Copy)]
struct Rectangle {
    corner: Cell,
    opposite: Cell,
    target: Cell,
    ghost fits: { Fits corner opposite target },
}

impl Rectangle {
    // Whether the track from the corner to the target is one line.
    fn is_one_line(self) -> bool
        ensures { result ≡ one_line self.corner self.opposite self.target }
    {
        self.corner.x == self.opposite.x
            || self.corner.y == self.opposite.y
            || self.corner == self.target
    }

    // Whether that line is a row or a column.
    fn line_way(self) -> Along
        ensures { result ≡ line_way self.corner self.target }
    {
        if self.corner.y == self.target.y {
            Along::Rows
        } else {
            Along::Columns
        }
    }

    #[tactic(auto, using(line::proofs::Between::dist_small))]
    fn measure(self) -> Sizes
        ensures { Measured self.corner self.opposite self.target result }
    {
        Sizes {
            w: distance(self.corner.x, self.opposite.x) + 1,
            h: distance(self.corner.y, self.opposite.y) + 1,
            dx: distance(self.corner.x, self.target.x),
            dy: distance(self.corner.y, self.target.y),
        }
    }

    // The number of cells of the track from the corner to the target.
    fn count(self) -> Cells
        ensures { result.0 ≡ track_count self.corner self.opposite self.target }
    {
        let s = self.measure();
        if s.dx + s.dy == 0 {
            return Cells(1);
        }
        if s.h == 1 {
            return Cells(s.dx + 1);
        }
        if s.w == 1 {
            return Cells(s.dy + 1);
        }
        let all = s.w * s.h;
        Cells(all - 1 + (all + (s.dx + s.dy)) % 2)
    }

    // The first k rows, or else columns, from the corner.
    fn first_lines(self, along: Along, k: u32) -> Peeled
        requires { FirstLines along self.corner self.opposite k }
        ensures { result ≡ first_lines along self.corner self.opposite k }
    {
        let from = along.seen(self.corner);
        let to = along.seen(self.opposite);
        let end = turn(k, from.x, to.x);
        let other = turn(k, to.x, from.x);
        let last = move_ahead(from.y, to.y, k - 1);
        let next = move_ahead(from.y, to.y, k);
        Peeled {
            along,
            far: place(along, to.x, last),
            end: place(along, end, last),
            home: place(along, other, from.y),
            cells: Cells((distance(from.x, to.x) + 1) * k),
            corner: place(along, end, next),
            opposite: place(along, other, to.y),
        }
    }

    // The choice is made along the longer side, since few long lines are faster than many short ones.
    fn peel(self) -> Peeled
        requires { one_line self.corner self.opposite self.target ≡ false }
        ensures lines { result ≡ peeled self.corner self.opposite self.target }
        ensures rest { Fits result.corner result.opposite self.target }
    {
        let s = self.measure();
        if s.h <= s.w {
            let wide = s.choose();
            return self.first_lines(wide.along, wide.count);
        }
        let tall = s.turned().choose();
        self.first_lines(tall.along.other(), tall.count)
    }

    // The rectangle that remains behind lines that were taken off.
    fn behind(self, p: Peeled) -> Rectangle
        requires { Fits p.corner p.opposite self.target }
        ensures corner { result.corner ≡ p.corner }
        ensures opposite { result.opposite ≡ p.opposite }
        ensures target { result.target ≡ self.target }
    {
        Rectangle {
            corner: p.corner,
            opposite: p.opposite,
            target: self.target,
        }
    }
}

// The number of cells of the track from a to t in the rectangle of a and b.
pub fn corner_count(a: Cell, b: Cell, t: Cell) -> Cells
    requires fact_1 { InBytes a }
    requires fact_2 { InBytes b }
    requires fact_3 { Inside a b t }
    ensures { result.0 ≡ track_count a b t }
{
    let whole = Rectangle {
        corner: a,
        opposite: b,
        target: t,
    };
    whole.count()
}

// Writes the track from the corner a to t in the rectangle of a and b at the front of the buffer: the
// next lines go into the part of the buffer behind the lines before them.
pub fn corner_track(a: Cell, b: Cell, t: Cell, buf: &mut [u8]) -> Cells
    requires { Ready a b t buf.old }
    ensures { (result.0 ≡ track_count a b t) × (buf.new ≡ written (corner_cells a b t) (track_count a b t) buf.old) }
{
    let mut rest = Rectangle {
        corner: a,
        opposite: b,
        target: t,
    };
    let count = rest.count();
    let mut at = 0;
    while !rest.is_one_line() {
        let p = rest.peel();
        draw_sweep(p.along, rest.corner, p.far, &mut buf[at..]);
        at += 2 * (p.cells.0 as usize);
        rest = rest.behind(p);
    }
    draw_sweep(rest.line_way(), rest.corner, rest.target, &mut buf[at..]);
    count
}

// The same track from t to a, written in that order: its size is known first, and the next lines go
// before the lines drawn so far.
// One walk for both would ask at each of its statements which way it goes: the place moves before a line is
// drawn or behind it, and the line begins at either of its ends.
pub fn corner_track_back(a: Cell, b: Cell, t: Cell, buf: &mut [u8]) -> Cells
    requires { Ready a b t buf.old }
    ensures { (result.0 ≡ track_count a b t) × (buf.new ≡ written (reverse (corner_cells a b t)) (track_count a b t) buf.old) }
{
    let mut rest = Rectangle {
        corner: a,
        opposite: b,
        target: t,
    };
    let count = rest.count();
    let mut at = 2 * (count.0 as usize);
    while !rest.is_one_line() {
        let p = rest.peel();
        at -= 2 * (p.cells.0 as usize);
        draw_sweep(p.along, p.end, p.home, &mut buf[at..]);
        rest = rest.behind(p);
    }
    draw_sweep(rest.line_way(), rest.target, rest.corner, buf);
    count
}
