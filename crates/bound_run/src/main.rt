// Answers Bound for lists of orders: the table of document 01, then both leads on one cell, orders that
// are refused and numbers at the ends of their range. A line gives the order (sides, entry, exit and pitch, as `foil`
// reads them) and, behind the colon, the refusal's number (0: none), the class and the count.
#![tactic(auto)]

use bound::{BoundValues, bound};
use grid::{Cell, Order, panel_of};
use std::io;
use trial::PITCH;
use trial::print::row;

// The largest number of 32 bits.
const MAX: u32 = 4294967295;

// Document 01's table of orders, which holds for every good pitch.
const TABLE: [[u32; 6]; 12] = [
    [5, 1, 5, 1, 1, 1],
    [5, 1, 2, 1, 4, 1],
    [6, 2, 2, 1, 2, 2],
    [6, 2, 3, 1, 4, 2],
    [6, 2, 3, 1, 4, 1],
    [4, 3, 2, 1, 3, 1],
    [4, 3, 2, 2, 3, 2],
    [4, 3, 1, 2, 2, 2],
    [3, 4, 2, 1, 2, 4],
    [3, 3, 2, 2, 1, 2],
    [3, 3, 1, 2, 3, 2],
    [128, 128, 1, 1, 128, 128],
];

// The square of document 01, and terminals in the other order.
const SQUARES: [[u32; 7]; 4] = [
    [2, 2, 1, 1, 2, 1, PITCH],
    [2, 2, 1, 1, 1, 2, PITCH],
    [4, 3, 2, 2, 1, 2, PITCH],
    [3, 4, 2, 4, 2, 1, PITCH],
];

// Equal terminals: on the smallest panel, in one row within it and at its ends, in one column, in two and
// three rows on cells of either colour, and on large panels.
const SPOTS: [[u32; 7]; 13] = [
    [1, 1, 1, 1, 1, 1, PITCH],
    [5, 1, 2, 1, 2, 1, PITCH],
    [5, 1, 1, 1, 1, 1, PITCH],
    [5, 1, 5, 1, 5, 1, PITCH],
    [1, 5, 1, 3, 1, 3, PITCH],
    [6, 2, 3, 2, 3, 2, PITCH],
    [2, 2, 2, 2, 2, 2, PITCH],
    [4, 3, 2, 1, 2, 1, PITCH],
    [3, 3, 2, 2, 2, 2, PITCH],
    [5, 5, 3, 4, 3, 4, PITCH],
    [128, 128, 128, 128, 128, 128, PITCH],
    [127, 128, 64, 1, 64, 1, 1000],
    [127, 128, 64, 1, 64, 1, 10000],
];

// Each refusal by itself.
const REFUSED: [[u32; 7]; 9] = [
    [129, 1, 1, 1, 2, 1, PITCH],
    [1, 129, 1, 1, 1, 2, PITCH],
    [0, 5, 1, 1, 1, 2, PITCH],
    [5, 0, 1, 1, 2, 1, PITCH],
    [5, 5, 0, 1, 2, 1, PITCH],
    [5, 5, 1, 6, 2, 1, PITCH],
    [5, 5, 1, 1, 6, 1, PITCH],
    [5, 5, 1, 1, 2, 0, PITCH],
    [1, 1, 1, 1, 2, 1, PITCH],
];

// The largest number in each place.
const LARGEST: [[u32; 7]; 8] = [
    [MAX, 1, 1, 1, 2, 1, PITCH],
    [2, MAX, 1, 1, 2, 1, PITCH],
    [2, 1, MAX, 1, 2, 1, PITCH],
    [2, 1, 1, MAX, 2, 1, PITCH],
    [2, 1, 1, 1, MAX, 1, PITCH],
    [2, 1, 1, 1, 2, MAX, PITCH],
    [2, 1, 1, 1, 2, 1, MAX],
    [MAX, MAX, MAX, MAX, MAX, MAX, MAX],
];

// Several faults at once: the first in order is named.
const SEVERAL: [[u32; 7]; 6] = [
    [0, 0, 0, 0, 0, 0, 0],
    [129, 5, 200, 1, 0, 1, PITCH],
    [5, 5, 6, 6, 6, 6, PITCH],
    [5, 5, 6, 1, 1, 6, PITCH],
    [5, 5, 1, 1, 6, 6, PITCH],
    [128, 128, 129, 128, 129, 128, PITCH],
];

// Pitches at the ends of their range and outside it.
const PITCHES: [[u32; 7]; 6] = [
    [5, 1, 2, 1, 4, 1, 999],
    [5, 1, 2, 1, 4, 1, 1000],
    [5, 1, 2, 1, 4, 1, 10000],
    [5, 1, 2, 1, 4, 1, 10001],
    [5, 1, 2, 1, 4, 1, 0],
    [5, 1, 2, 1, 4, 1, MAX],
];

// A bad pitch behind a bad side, then before each fault that is tested after it, and with equal terminals.
const PITCH_AND_MORE: [[u32; 7]; 6] = [
    [129, 1, 1, 1, 2, 1, 999],
    [5, 0, 1, 1, 2, 1, 10001],
    [5, 5, 6, 1, 2, 1, 999],
    [5, 5, 1, 1, 6, 1, 10001],
    [5, 5, 3, 4, 3, 4, 0],
    [5, 5, 0, 0, 0, 0, MAX],
];

fn answer(rt: &impl Print, numbers: [u32; 7]) -> io::Result<()> {
    let [m, n, sx, sy, tx, ty, pitch] = numbers;
    let v = BoundValues::from(bound(Order {
        panel: panel_of(m, n, pitch),
        entry: Cell { x: sx, y: sy },
        exit: Cell { x: tx, y: ty },
    }));
    row(rt, &numbers, b": ")?;
    row(rt, &[v.refusal, v.class, v.count.0], b"\n")
}

fn answer_all(rt: &impl Print, orders: &[[u32; 7]]) -> io::Result<()> {
    for &numbers in orders {
        answer(rt, numbers)?;
    }
    Ok(())
}

// The table, for one pitch.
fn table(rt: &impl Print, pitch: u32) -> io::Result<()> {
    for [m, n, sx, sy, tx, ty] in TABLE {
        answer(rt, [m, n, sx, sy, tx, ty, pitch])?;
    }
    Ok(())
}

fn main(rt: HostRuntime) -> io::Result<()> {
    table(&rt, PITCH)?;
    answer_all(&rt, &SQUARES)?;
    answer_all(&rt, &SPOTS)?;
    answer_all(&rt, &REFUSED)?;
    answer_all(&rt, &LARGEST)?;
    answer_all(&rt, &SEVERAL)?;
    answer_all(&rt, &PITCHES)?;
    answer_all(&rt, &PITCH_AND_MORE)?;
    table(&rt, 1000)?;
    table(&rt, 10000)
}
