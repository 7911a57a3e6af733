// Draws every order on panels up to 6 by 6, off-panel terminals included, into a filled buffer, and
// checks each answer and each byte by a plain look at them; then the order of document 01 that
// needs 32,768 bytes, with that many and with one fewer; both leads on one cell; then pitches in and out of
// their range. A line
// of these gives the order (sides, entry, exit and pitch) and the buffer's size and, behind the colon,
// the refusal's number (0: none), the count and what all bytes of the buffer say: `a track`, the cells
// are one and the bytes behind are as before; `untouched`, all bytes are as before; else `FAULT`.
#![tactic(auto)]

use grid::{Cell, CellsValues, Order, panel_of};
use std::io;
use trial::PITCH;
use trial::cells::{filled, is_track};

// What the buffers are filled with.
const FILL: u8 = 170;

// The first cell of a panel.
const FIRST: Cell = Cell { x: 1, y: 1 };

#[derive(Clone, Copy, Debug, Default, PartialEq, Eq)]
struct Totals {
    orders: u32,
    drawn: u32,
    cells: u32,
    wrong: u32,
}

// Whether the first k cells of the buffer, which was filled, are a track of the order and the bytes behind are
// as before.
fn holds(buf: &[u8], o: Order, k: u32) -> bool {
    filled(buf, 2 * (k as usize), FILL) && is_track(buf, o, FIRST, k)
}

// One order into the buffer, which is filled: whether all of it is right.
fn right(o: Order, buf: &mut [u8]) -> bool {
    match (bound::bound(o), draw::draw(o, buf)) {
        (Ok(found), Ok(cells)) => found.count == cells && holds(buf, o, cells.0),
        (Err(r), Err(q)) => r == q && filled(buf, 0, FILL),
        _ => false,
    }
}

// The order of number `code`: six numbers from 1 to 6, and in turn every pitch of the range.
fn order_of(code: u32) -> Order {
    Order {
        panel: panel_of(code % 6 + 1, code / 6 % 6 + 1, code % 9001 + 1000),
        entry: Cell {
            x: code / 36 % 6 + 1,
            y: code / 216 % 6 + 1,
        },
        exit: Cell {
            x: code / 1296 % 6 + 1,
            y: code / 7776 % 6 + 1,
        },
    }
}

fn count_one(t: Totals, code: u32) -> Totals {
    let o = order_of(code);
    let good = right(o, &mut [FILL; 80]);
    let k = bound::bound(o).map_or(0, |found| found.count.0);
    Totals {
        orders: t.orders.wrapping_add(1),
        drawn: t.drawn.wrapping_add(u32::from(k != 0)),
        cells: t.cells.wrapping_add(k),
        wrong: t.wrong.wrapping_add(u32::from(!good)),
    }
}

// The orders whose first six numbers are from 1 to 6.
fn small_panels(rt: &impl Print) -> io::Result<()> {
    let mut t = Totals::default();
    for code in 0..46656 {
        t = count_one(t, code);
    }
    println!(rt;
        "orders {}, drawn {}, cells {}, wrong {}",
        t.orders, t.drawn, t.cells, t.wrong
    )
}

// What the buffer holds after a call that gave k cells.
fn found(buf: &[u8], o: Order, k: u32) -> &'static str {
    if k == 0 && filled(buf, 0, FILL) {
        return "untouched";
    }
    if holds(buf, o, k) { "a track" } else { "FAULT" }
}

// One order into the buffer, which is filled: its line.
fn show(rt: &impl Print, o: Order, buf: &mut [u8]) -> io::Result<()> {
    let Order { panel, entry, exit } = o;
    let a = CellsValues::from(draw::draw(o, buf));
    print!(rt; "{} {} {} {} ", panel.width, panel.height, entry.x, entry.y)?;
    print!(rt;
        "{} {} {} in {} bytes: ",
        exit.x,
        exit.y,
        panel.pitch,
        buf.len()
    )?;
    println!(rt; "{} {} {}", a.refusal, a.cells.0, found(buf, o, a.cells.0))
}

// The largest panel, along its left edge.
fn large(rt: &impl Print, buf: &mut [u8]) -> io::Result<()> {
    let o = Order {
        panel: panel_of(128, 128, PITCH),
        entry: FIRST,
        exit: Cell { x: 1, y: 128 },
    };
    show(rt, o, buf)
}

// Both leads on one cell, in a buffer just long enough, one byte too short and empty.
fn spot(rt: &impl Print, m: u32, n: u32, c: Cell) -> io::Result<()> {
    let o = Order {
        panel: panel_of(m, n, PITCH),
        entry: c,
        exit: c,
    };
    show(rt, o, &mut [FILL; 2])?;
    show(rt, o, &mut [FILL; 1])?;
    show(rt, o, &mut [FILL; 0])
}

fn spots(rt: &impl Print) -> io::Result<()> {
    spot(rt, 1, 1, FIRST)?;
    spot(rt, 6, 1, Cell { x: 3, y: 1 })?;
    spot(rt, 3, 3, Cell { x: 2, y: 2 })?;
    spot(rt, 128, 128, Cell { x: 128, y: 1 })?;
    six_wide(rt, 2, [3, 1, 3, 1], PITCH)
}

// An order on a panel of 6 columns, the terminals as in a line.
fn six_columns(height: u32, terminals: [u32; 4], pitch: u32) -> Order {
    let [sx, sy, tx, ty] = terminals;
    Order {
        panel: panel_of(6, height, pitch),
        entry: Cell { x: sx, y: sy },
        exit: Cell { x: tx, y: ty },
    }
}

// The same in a buffer for 12 cells and one more.
fn six_wide(rt: &impl Print, height: u32, terminals: [u32; 4], pitch: u32) -> io::Result<()> {
    show(rt, six_columns(height, terminals, pitch), &mut [FILL; 26])
}

// An order of 12 cells in a buffer that is one byte too short for them.
fn too_short(rt: &impl Print, pitch: u32) -> io::Result<()> {
    show(rt, six_columns(2, [3, 1, 4, 1], pitch), &mut [FILL; 23])
}

// Pitches at the ends of their range and outside it.
fn pitches(rt: &impl Print) -> io::Result<()> {
    for pitch in [999, 1000, 10000, 10001, 0, u32::MAX] {
        six_wide(rt, 2, [3, 1, 4, 1], pitch)?;
    }
    Ok(())
}

// A bad pitch behind a bad side, then before each fault that is tested after it and with equal terminals; then
// the last of these with a good pitch.
fn pitch_and_more(rt: &impl Print) -> io::Result<()> {
    six_wide(rt, 129, [3, 1, 4, 1], 999)?;
    six_wide(rt, 0, [3, 1, 4, 1], u32::MAX)?;
    six_wide(rt, 2, [0, 1, 4, 1], 999)?;
    six_wide(rt, 2, [3, 1, 4, 3], 10001)?;
    six_wide(rt, 2, [3, 1, 3, 1], 0)?;
    too_short(rt, 10001)?;
    too_short(rt, 10000)
}

fn main(rt: HostRuntime) -> io::Result<()> {
    small_panels(&rt)?;
    large(&rt, &mut [FILL; 32767])?;
    large(&rt, &mut [FILL; 32768])?;
    spots(&rt)?;
    pitches(&rt)?;
    pitch_and_more(&rt)
}
