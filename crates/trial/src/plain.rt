// What Probe must give, the plain way: each probe is searched by itself in the whole list.
use crate::cells::cell_at;
use grid::Cell;

// The numbers of Probe's sheet.
#[derive(Clone, Copy)]
pub struct Sheet {
    pub refusal: u32,
    pub positions: [u32; 64],
    pub nearest: [Cell; 64],
    pub read: u32,
}

const NOWHERE: Cell = Cell { x: 0, y: 0 };

// The bytes of each cell of a list.
fn pairs(list: &[u8]) -> &[[u8; 2]] {
    list.as_chunks::<2>().0
}

// Their cell, read here and not by the router.
fn cell_of(pair: [u8; 2]) -> Cell {
    let [x, y] = pair;
    Cell {
        x: u32::from(x),
        y: u32::from(y),
    }
}

// The position of a cell in the list, counted from 1, or 0.
pub fn position_of(list: &[u8], c: Cell) -> u32 {
    match pairs(list)
        .iter()
        .position(|&[x, y]| u32::from(x) == c.x && u32::from(y) == c.y)
    {
        Some(i) => (i % 65536) as u32 + 1,
        None => 0,
    }
}

fn square(a: u32) -> u32 {
    if a < 256 { a * a } else { 0 }
}

fn squared(a: Cell, b: Cell) -> u32 {
    square(a.x.abs_diff(b.x)).wrapping_add(square(a.y.abs_diff(b.y)))
}

// The earliest cell of the list that no other is nearer than.
fn nearest_of(list: &[u8], c: Cell) -> Cell {
    let mut best = cell_at(list, 0);
    let mut least = squared(c, best);
    for &pair in pairs(list) {
        let next = cell_of(pair);
        let away = squared(c, next);
        if away < least {
            best = next;
            least = away;
        }
    }
    best
}

// How many cells are read for the probes: as far as the furthest, or all for one that is missed.
fn read_for(positions: &[u32], cells: u32) -> u32 {
    if positions.contains(&0) {
        return cells;
    }
    positions.iter().copied().max().unwrap_or(0)
}

// The sheet without a place used.
pub fn blank(refusal: u32) -> Sheet {
    Sheet {
        refusal,
        positions: [0; 64],
        nearest: [NOWHERE; 64],
        read: 0,
    }
}

// The sheet of a good list and good probes.
pub fn sheet_of(list: &[u8], probes: &[u8]) -> Sheet {
    let mut sheet = blank(0);
    let places = pairs(probes).len().min(64);
    for (i, &pair) in pairs(probes).iter().take(64).enumerate() {
        let c = cell_of(pair);
        sheet.positions[i] = position_of(list, c);
        if sheet.positions[i] == 0 {
            sheet.nearest[i] = nearest_of(list, c);
        }
    }
    sheet.read = read_for(
        &sheet.positions[..places],
        (pairs(list).len() % 65536) as u32,
    );
    sheet
}

// How many places have other numbers on the two sheets, with refusal and cells read counted as one place.
pub fn different(s: Sheet, t: Sheet) -> u32 {
    let mut n = u32::from(s.refusal != t.refusal || s.read != t.read);
    for i in 0..64 {
        if s.positions[i] != t.positions[i] || s.nearest[i] != t.nearest[i] {
            n = n.wrapping_add(1);
        }
    }
    n
}
