// Lists of cells in buffers: made, and looked at plainly, apart from the router's own code.
use grid::{Cell, Order, Panel};

// A byte of the buffer, or 0 past its end.
pub fn byte_at(buf: &[u8], at: usize) -> u32 {
    buf.get(at).map_or(0, |&b| u32::from(b))
}

// How many whole cells so many bytes hold.
pub fn cells_in(bytes: usize) -> u32 {
    (bytes / 2 % 65536) as u32
}

// Cell i of the list at the front of a buffer.
pub fn cell_at(buf: &[u8], i: u32) -> Cell {
    let at = 2 * (i as usize);
    let x = byte_at(buf, at);
    let y = byte_at(buf, at + 1);
    Cell { x, y }
}

// Makes a cell the list's cell i, where the buffer has room.
pub fn put(buf: &mut [u8], i: u32, c: Cell) {
    let at = 2 * (i as usize);
    if at + 1 < buf.len() {
        buf[at] = (c.x % 256) as u8;
        buf[at + 1] = (c.y % 256) as u8;
    }
}

// One cell again and again, as often as the buffer has room.
pub fn repeat(buf: &mut [u8], c: Cell) {
    for i in 0..cells_in(buf.len()) {
        put(buf, i, c);
    }
}

fn beside(a: Cell, b: Cell) -> bool {
    if a.x == b.x {
        return a.y.abs_diff(b.y) == 1;
    }
    a.y == b.y && a.x.abs_diff(b.x) == 1
}

// Whether a cell is on the panel, neither left of `low` nor above it.
pub fn on(p: Panel, low: Cell, c: Cell) -> bool {
    low.x <= c.x && low.y <= c.y && c.x <= p.width && c.y <= p.height
}

// Marks a cell, whether it was not marked before.
fn mark(marks: &mut [u8], c: Cell) -> bool {
    let row = (c.y % 256) as usize;
    let column = (c.x % 256) as usize;
    let at = 130 * row + column;
    if at < marks.len() && marks[at] == 0 {
        marks[at] = 1;
        return true;
    }
    false
}

// Whether cell i of the list may stand there: on the panel, not passed before, beside cell i - 1.
fn follows(buf: &[u8], marks: &mut [u8], p: Panel, low: Cell, i: u32) -> bool {
    let c = cell_at(buf, i);
    if !on(p, low, c) {
        return false;
    }
    if !mark(marks, c) {
        return false;
    }
    if i == 0 {
        return true;
    }
    beside(cell_at(buf, i - 1), c)
}

// Whether the first k cells of the buffer are a track of the order, none of them left of `low` or
// above it.
pub fn is_track(buf: &[u8], o: Order, low: Cell, k: u32) -> bool {
    if k == 0 {
        return false;
    }
    if cell_at(buf, 0) != o.entry || cell_at(buf, k - 1) != o.exit {
        return false;
    }
    let mut marks = [0u8; 17000];
    for i in 0..k {
        if !follows(buf, &mut marks, o.panel, low, i) {
            return false;
        }
    }
    true
}

// Whether the first k cells of the buffer may be closed: four or more, the last beside the first.
pub fn is_closed(buf: &[u8], k: u32) -> bool {
    4 <= k && beside(cell_at(buf, k - 1), cell_at(buf, 0))
}

// How many bytes are b.
pub fn count(buf: &[u8], b: u8) -> u32 {
    buf.iter()
        .filter(|&&byte| byte == b)
        .fold(0, |n: u32, _| n.wrapping_add(1))
}

// Whether every byte from `from` on is b.
pub fn filled(buf: &[u8], from: usize, b: u8) -> bool {
    buf.get(from..)
        .is_none_or(|rest| rest.iter().all(|&byte| byte == b))
}

// The x of a place in a row of 128 cells: rightwards in the even rows from 0, else leftwards.
fn turning_x(row: usize, place: usize) -> u8 {
    if row % 2 == 0 {
        (place % 128 + 1) as u8
    } else {
        (128 - place % 128) as u8
    }
}

// The rows of the panel of 128 by 128, one to the right, the next to the left.
pub fn snake(list: &mut [u8]) {
    for (i, pair) in list.as_chunks_mut::<2>().0.iter_mut().enumerate() {
        *pair = [turning_x(i / 128, i), (i / 128 % 128 + 1) as u8];
    }
}

// Cells 319, 574, and so on of that panel's rows: 64 of them go to the last, 16,384.
pub fn spread(buf: &mut [u8]) {
    let mut rows = [0u8; 32768];
    snake(&mut rows);
    for i in 0..64 {
        put(buf, i, cell_at(&rows, 255 * i + 318));
    }
}

// ---- searches for a cell

// How often a search was to give a cell, how often none, and how often it answered otherwise.
#[derive(Clone, Copy, Debug, PartialEq, Eq)]
pub struct Tally {
    pub given: u32,
    pub none: u32,
    pub wrong: u32,
}

// One search more; (0, 0) stands for no cell.
pub fn tallied(t: Tally, expected: Cell, got: Cell) -> Tally {
    let none = expected.x == 0;
    Tally {
        given: t.given.wrapping_add(u32::from(!none)),
        none: t.none.wrapping_add(u32::from(none)),
        wrong: t.wrong.wrapping_add(u32::from(expected != got)),
    }
}
