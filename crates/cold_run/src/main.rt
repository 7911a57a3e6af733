// Draws every order on the panels of 3 to 6 by 3 to 6 cells and looks at each cell of the panel, whether it
// stands in the list. A line gives the class, whether mn is even or odd and the entry's colour and, behind the
// colon, the number of such orders and how many white and how many black cells their tracks leave in all. The
// last line says how many orders left other cells than document 02 promises, or were not drawn as a track of
// Bound's count. Of spot heaters (class 6) nothing is promised.
#![tactic(auto)]

use bound::BoundValues;
use grid::{Cell, CellsValues, Order, Panel, panel_of};
use std::io;
use trial::PITCH;
use trial::cells::{is_track, on};
use trial::plain::position_of;

// The first cell of a panel.
const FIRST: Cell = Cell { x: 1, y: 1 };

// How many cells of each colour are left uncovered.
#[derive(Clone, Copy, Debug, Default, PartialEq, Eq)]
struct Left {
    white: u32,
    black: u32,
}

// The orders of a line, and the cells that their tracks leave.
#[derive(Clone, Copy, Debug, Default, PartialEq, Eq)]
struct Line {
    orders: u32,
    left: Left,
}

// The lines, and the wrong orders.
#[derive(Clone, Copy)]
struct Totals {
    lines: [Line; 16],
    wrong: u32,
}

// The cells from (1, 1) on, in rows of six.
fn nth(i: u32) -> Cell {
    Cell {
        x: i % 6 + 1,
        y: i / 6 % 6 + 1,
    }
}

fn is_black(c: Cell) -> bool {
    c.x.wrapping_add(c.y) % 2 == 1
}

// ---- a plain look

// Whether a cell of the panel is not in the list. Behind the list the buffer is 0, so all of it is searched.
fn is_left(p: Panel, list: &[u8], c: Cell) -> bool {
    on(p, FIRST, c) && position_of(list, c) == 0
}

// The cells of the panel that do not stand in the list.
fn look(p: Panel, list: &[u8]) -> Left {
    let mut left = Left::default();
    for i in 0..36 {
        let c = nth(i);
        let here = is_left(p, list, c);
        left = Left {
            white: left.white.wrapping_add(u32::from(here && !is_black(c))),
            black: left.black.wrapping_add(u32::from(here && is_black(c))),
        };
    }
    left
}

// ---- what document 02 says of a class

fn one_opposite(c: Cell) -> Left {
    Left {
        white: u32::from(is_black(c)),
        black: u32::from(!is_black(c)),
    }
}

fn as_promised(class: u32, odd: bool, o: Order, left: Left) -> bool {
    match (class, odd) {
        (3, _) => left == Left { white: 0, black: 0 },
        (4, false) => left == one_opposite(o.entry) && left == one_opposite(o.exit),
        (4, true) => left == Left { white: 1, black: 0 },
        (5, false) => left == Left { white: 1, black: 1 },
        (5, true) => left == Left { white: 2, black: 0 },
        _ => class == 6,
    }
}

// ---- the orders

// Whether mn is odd.
fn odd_area(p: Panel) -> bool {
    p.width % 2 == 1 && p.height % 2 == 1
}

// The number of an order's line: classes 3 to 6, mn even or odd, the entry white or black. Another class falls
// on one of these lines, and its order counts as wrong.
fn line_of(class: u32, odd: bool, entry: Cell) -> usize {
    let colour = u32::from(is_black(entry));
    (class.wrapping_add(1) % 4 * 4 + u32::from(odd) % 2 * 2 + colour % 2) as usize
}

// An order of the line more, and what its track leaves.
fn add_to(line: Line, left: Left) -> Line {
    Line {
        orders: line.orders.wrapping_add(1),
        left: Left {
            white: line.left.white.wrapping_add(left.white),
            black: line.left.black.wrapping_add(left.black),
        },
    }
}

fn add_order(t: &mut Totals, o: Order) {
    let mut list = [0u8; 72];
    let b = BoundValues::from(bound::bound(o));
    let a = CellsValues::from(draw::draw(o, &mut list));
    let left = look(o.panel, &list);
    let odd = odd_area(o.panel);
    let drawn = a.cells == b.count && is_track(&list, o, FIRST, a.cells.0);
    if !(drawn && as_promised(b.class, odd, o, left)) {
        t.wrong = t.wrong.wrapping_add(1);
    }
    let at = line_of(b.class, odd, o.entry) % 16;
    t.lines[at] = add_to(t.lines[at], left);
}

// The order of number `code`: sides from 3 to 6, entry and exit anywhere in 6 by 6 cells.
fn order_of(code: u32) -> Order {
    Order {
        panel: panel_of(code % 4 + 3, code / 4 % 4 + 3, PITCH),
        entry: nth(code / 16 % 36),
        exit: nth(code / 576 % 36),
    }
}

// The orders whose terminals are both on the panel.
fn every_order() -> Totals {
    let mut t = Totals {
        lines: [Line::default(); 16],
        wrong: 0,
    };
    for code in 0..20736 {
        let o = order_of(code);
        if on(o.panel, FIRST, o.entry) && on(o.panel, FIRST, o.exit) {
            add_order(&mut t, o);
        }
    }
    t
}

// ---- the lines

// The line of that number.
fn show(rt: &impl Print, number: usize, line: Line) -> io::Result<()> {
    let class = number / 4 % 4 + 3;
    let parity = if number / 2 % 2 == 0 { "even" } else { "odd" };
    let colour = if number % 2 == 0 { "white" } else { "black" };
    print!(rt;
        "class {class}, mn {parity}, entry {colour}: orders {}",
        line.orders
    )?;
    println!(rt;
        ", left white {}, black {}",
        line.left.white, line.left.black
    )
}

fn main(rt: HostRuntime) -> io::Result<()> {
    let t = every_order();
    for (number, line) in t.lines.iter().enumerate() {
        if line.orders != 0 {
            show(&rt, number, *line)?;
        }
    }
    println!(&rt; "wrong {}", t.wrong)
}
