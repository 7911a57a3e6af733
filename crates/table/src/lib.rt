// The 3 by 3 panel: its longest tracks stand in a table, and a row of it is placed on the panel for
// two terminals.
#![tactic(auto)]

ghost use Rattle.std.specs.Prelude.{◌≡◌, ◌++◌, ℕ, ◌≤◌, ◌<◌, ◌*◌, length, drop};
ghost use Rattle.grid.specs.Panel.{panel};
ghost use Rattle.grid.specs.Bytes.{bytes};
ghost use Rattle.line.specs.Line.{line};
ghost use Rattle.list.specs.List.{with_cells};
ghost use Rattle.table.specs.Order.{ReadyOrder};
ghost use Rattle.table.specs.Table.{entry_at, row_size, row_cell, turn_if, mirror, mirror_cell, place, position, placed_cell};
ghost use Rattle.table.specs.Table.{UpToFour, twos, to_mirror, to_turn, row_of, placing_from, placing, tabled};

use grid::{Cell, turn_cell};
use list::put_cell;

// A row for each pair of terminals up to turning, mirroring and exchanging: the number of cells,
// then x and y of each. A table of tables of fixed size, since there is no heap: a shorter row ends in zeros.
const ROWS: [[u8; 19]; 8] = [
    [8, 1, 1, 1, 2, 1, 3, 2, 3, 3, 3, 3, 2, 3, 1, 2, 1, 0, 0],
    [9, 1, 1, 2, 1, 3, 1, 3, 2, 3, 3, 2, 3, 1, 3, 1, 2, 2, 2],
    [9, 1, 1, 1, 2, 1, 3, 2, 3, 3, 3, 3, 2, 2, 2, 2, 1, 3, 1],
    [8, 1, 1, 1, 2, 1, 3, 2, 3, 2, 2, 2, 1, 3, 1, 3, 2, 0, 0],
    [9, 1, 1, 2, 1, 3, 1, 3, 2, 2, 2, 1, 2, 1, 3, 2, 3, 3, 3],
    [7, 2, 1, 3, 1, 3, 2, 3, 3, 2, 3, 1, 3, 1, 2, 0, 0, 0, 0],
    [8, 2, 1, 1, 1, 1, 2, 1, 3, 2, 3, 3, 3, 3, 2, 2, 2, 0, 0],
    [7, 2, 1, 1, 1, 1, 2, 2, 2, 3, 2, 3, 3, 2, 3, 0, 0, 0, 0],
];

// A row of the table.
#[derive(Clone, Copy)]
struct Row {
    number: usize,
    ghost known: { number < 8 },
}

impl Row {
    fn entry(self, i: usize) -> u8
        requires { i < 19 }
        ensures { result ≡ entry_at self.number i }
    {
        ROWS[self.number][i]
    }

    // How many cells it has.
    fn size(self) -> usize
        ensures { result ≡ row_size self.number }
    {
        usize::from(self.entry(0))
    }

    // Its cell j, from 0.
    fn cell(self, j: usize) -> Cell
        requires { j < 9 }
        ensures { result ≡ row_cell self.number j }
    {
        Cell {
            x: u32::from(self.entry(2 * j + 1)),
            y: u32::from(self.entry(2 * j + 2)),
        }
    }
}

// ---- cells turned and mirrored

fn turn_if(on: bool, c: Cell) -> Cell
    ensures { result ≡ turn_if on c }
{
    if on { turn_cell(c) } else { c }
}

fn mirror_number(on: bool, a: u32) -> u32
    ensures { result ≡ mirror on a }
{
    if on { 4u32.saturating_sub(a) } else { a }
}

fn mirror_cell(across: bool, down: bool, c: Cell) -> Cell
    ensures { result ≡ mirror_cell across down c }
{
    Cell {
        x: mirror_number(across, c.x),
        y: mirror_number(down, c.y),
    }
}

// ---- which row, and how it is placed

fn count_twos(c: Cell) -> u32
    ensures { result ≡ twos c }
{
    u32::from(c.x == 2) + u32::from(c.y == 2)
}

fn is_mirrored(a: u32, b: u32) -> bool
    ensures { result ≡ to_mirror a b }
{
    a == 3 || (a == 2 && b == 3)
}

fn is_turned(a: Cell, b: Cell) -> bool
    ensures { result ≡ to_turn a b }
{
    a.x < a.y || (a.x == a.y && b.x < b.y)
}

fn row_of(a: Cell, b: Cell) -> usize
    requires { UpToFour b }
    ensures { result ≡ row_of a b }
{
    if a.x == 1 {
        (2 * b.x + b.y).saturating_sub(5) as usize
    } else {
        (b.x + b.y + 2) as usize
    }
}

// How a row is placed on the panel: turned, then mirrored in x (`across`) and in y (`down`), and
// walked from its end where `back` is set.
#[derive(Clone, Copy)]
pub struct Placing {
    pub row: usize,
    pub turn: bool,
    pub across: bool,
    pub down: bool,
    pub back: bool,
}

impl Placing {
    // That of the row that starts at a and ends at b.
    fn from_to(a: Cell, b: Cell, back: bool) -> Placing
        requires { UpToFour b }
        ensures { result ≡ placing_from a b back }
    {
        let across = is_mirrored(a.x, b.x);
        let down = is_mirrored(a.y, b.y);
        let u = mirror_cell(across, down, a);
        let v = mirror_cell(across, down, b);
        let turn = is_turned(u, v);
        Placing {
            row: row_of(turn_if(turn, u), turn_if(turn, v)),
            turn,
            across,
            down,
            back,
        }
    }

    // That for two terminals: from the one that has fewer coordinates 2.
    #[tactic(auto, unfolding(crate::specs::Table::placing))]
    fn of(s: Cell, t: Cell) -> Placing
        requires { UpToFour s × UpToFour t }
        ensures { result ≡ placing s t }
    {
        if count_twos(t) < count_twos(s) {
            Placing::from_to(t, s, true)
        } else {
            Placing::from_to(s, t, false)
        }
    }

    // A cell of a row as it is placed.
    fn place(self, c: Cell) -> Cell
        ensures { result ≡ place self c }
    {
        mirror_cell(self.across, self.down, turn_if(self.turn, c))
    }

    // Which of a row's n cells is written as number i.
    fn position(self, n: usize, i: usize) -> usize
        requires { i < n }
        ensures { result ≡ position self.back n i }
    {
        if self.back { n - (i + 1) } else { i }
    }

    // Writes the cells of the row, as it is placed.
    fn write(self, buf: &mut [u8])
        requires row { self.row < 8 }
        requires room { 2 * row_size self.row ≤ length buf.old }
        ensures { buf.new ≡ bytes (line (placed_cell self) (row_size self.row)) ++ drop (2 * row_size self.row) buf.old }
    {
        let row = Row { number: self.row };
        let n = row.size();
        for i in 0..n {
            put_cell(buf, 2 * i, self.place(row.cell(self.position(n, i))));
        }
    }
}

// Draws the table's track of 3 by 3 cells, which serves every pitch.
pub fn draw_small(s: Cell, t: Cell, buf: &mut [u8])
    requires { (pitch : ℕ) → ReadyOrder (panel 3 3 pitch) s t buf.old }
    ensures { buf.new ≡ with_cells (tabled s t) buf.old }
{
    Placing::of(s, t).write(buf);
}
