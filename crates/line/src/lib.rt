// Lines of cells, written into a lent buffer: one line, lines there and back, and all rows or all columns
// of a rectangle.
#![tactic(auto)]

ghost use Rattle.std.specs.Prelude.{◌≡◌, ◌+◌, ◌-◌, ◌*◌, ◌%◌, ◌≤◌, length};
ghost use Rattle.line.specs.Along.{seen, other, unit};
ghost use Rattle.line.specs.Rectangle.{cells_between};
ghost use Rattle.line.specs.Line.{line, cell_number, numbered, step_to, snake};
ghost use Rattle.line.specs.Sweep.{sweep};
ghost use Rattle.line.specs.Drawn.{InBytes, written};

use grid::{Cell, distance, turn_cell};

// The lines of a rectangle: all its rows, or all its columns.
#[derive(Clone, Copy, Debug, PartialEq, Eq)]
pub enum Along {
    Rows,
    Columns,
}

impl Along {
    // A cell as the lines have it: x is its place in its line, and y its line.
    #[inline]
    pub fn seen(self, c: Cell) -> Cell
        ensures { result ≡ seen self c }
    {
        match self {
            Along::Rows => c,
            Along::Columns => turn_cell(c),
        }
    }

    #[inline]
    pub fn other(self) -> Along
        ensures { result ≡ other self }
    {
        match self {
            Along::Rows => Along::Columns,
            Along::Columns => Along::Rows,
        }
    }

    // How much more in number the next cell of a line is.
    fn unit(self) -> u16
        ensures { result ≡ unit self }
    {
        match self {
            Along::Rows => 1,
            Along::Columns => 256,
        }
    }
}

// n cells from the number `first` on, each `step` further: one loop for the four directions, since
// taking away is adding modulo 65536. The compiler stores eight cells at a time.
fn draw_line(first: u16, step: u16, n: usize, buf: &mut [u8])
    requires { 2 * n ≤ length buf.old }
    ensures { buf.new ≡ written (line (numbered first step) n) n buf.old }
{
    let mut cell = first;
    for i in 0..n {
        buf[2 * i] = (cell % 256) as u8;
        buf[2 * i + 1] = (cell / 256) as u8;
        cell = cell.wrapping_add(step);
    }
}

// The step from p towards q, where one cell further is `unit` more.
#[tactic(auto, unfolding(crate::specs::Line::step_to))]
fn step_to(unit: u16, p: u32, q: u32) -> u16
    requires { 1 ≤ unit }
    ensures { result ≡ step_to unit p q }
{
    if p <= q { unit } else { unit.wrapping_neg() }
}

#[tactic(auto, unfolding(crate::specs::Line::cell_number))]
fn cell_number(c: Cell) -> u16
    requires { InBytes c }
    ensures { result ≡ cell_number c }
{
    (c.x + 256 * c.y) as u16
}

// Lines there and back, by the numbers of their cells: that of the first cell, the steps along a line there
// and along one back, and the step from a line's end to the next line.
#[derive(Clone, Copy)]
struct Snake {
    first: u16,
    there: u16,
    back: u16,
    across: u16,
    cells: usize,
    lines: usize,
    ghost some: { 1 ≤ cells },
    ghost most: { cells ≤ 256 },
}

impl Snake {
    // All lines of the rectangle of a and b, there and back from the corner a.
    fn of(along: Along, a: Cell, b: Cell) -> Snake
        requires corner { InBytes a }
        requires opposite { InBytes b }
        ensures cells { snake result.first result.there result.back result.across result.cells result.lines ≡ sweep along a b }
        ensures size { result.cells * result.lines ≡ cells_between a b }
    {
        let from = along.seen(a);
        let to = along.seen(b);
        let unit = along.unit();
        Snake {
            first: cell_number(a),
            there: step_to(unit, from.x, to.x),
            back: step_to(unit, to.x, from.x),
            across: step_to(along.other().unit(), from.y, to.y),
            cells: distance(from.x, to.x) as usize + 1,
            lines: distance(from.y, to.y) as usize + 1,
        }
    }

    // One of the lines: also the number where the next one begins.
    fn draw_next(self, from: u16, way: u16, buf: &mut [u8]) -> u16
        requires { 2 * self.cells ≤ length buf.old }
        ensures next { result ≡ (from + way * (self.cells - 1) + self.across) % 65536 }
        ensures buf_after { buf.new ≡ written (line (numbered from way) self.cells) self.cells buf.old }
    {
        draw_line(from, way, self.cells, buf);
        let last = from.wrapping_add(way.wrapping_mul((self.cells - 1) as u16));
        last.wrapping_add(self.across)
    }

    // Two lines a turn, so that both steps are known before the loop.
    fn draw(self, buf: &mut [u8])
        requires { 2 * (self.cells * self.lines) ≤ length buf.old }
        ensures { buf.new ≡ written (snake self.first self.there self.back self.across self.cells self.lines) (self.cells * self.lines) buf.old }
    {
        let mut from = self.first;
        let mut at = 0;
        for _ in 0..self.lines / 2 {
            let middle = self.draw_next(from, self.there, &mut buf[at..]);
            from = self.draw_next(middle, self.back, &mut buf[at + 2 * self.cells..]);
            at += 4 * self.cells;
        }
        if self.lines % 2 == 1 {
            self.draw_next(from, self.there, &mut buf[at..]);
        }
    }
}

// All rows or all columns of the rectangle of a and b, there and back from the corner a.
pub fn draw_sweep(along: Along, a: Cell, b: Cell, buf: &mut [u8])
    requires fact_1 { InBytes a }
    requires fact_2 { InBytes b }
    requires fact_3 { 2 * cells_between a b ≤ length buf.old }
    ensures { buf.new ≡ written (sweep along a b) (cells_between a b) buf.old }
{
    Snake::of(along, a, b).draw(buf);
}
