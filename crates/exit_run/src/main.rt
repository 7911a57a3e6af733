// Answers Exit for lists of panels, entries and wanted counts. A line gives the sides, the entry, the
// wanted count and the pitch and, behind the colon, the refusal's number (0: none) and the cell.
#![tactic(auto)]

use exit::find_exit;
use grid::{Cell, Cells, panel_of};
use std::io;
use trial::PITCH;
use trial::print::row;

// The largest number of 32 bits.
const MAX: u32 = 4294967295;

// Cells found: in one row, two rows, three rows and on large panels.
const FOUND: [[u32; 6]; 11] = [
    [5, 1, 2, 1, 4, PITCH],
    [5, 1, 2, 1, 3, PITCH],
    [6, 2, 2, 1, 12, PITCH],
    [6, 2, 2, 1, 11, PITCH],
    [4, 3, 1, 2, 12, PITCH],
    [3, 3, 1, 2, 8, PITCH],
    [3, 3, 2, 2, 8, PITCH],
    [128, 128, 1, 1, 16384, PITCH],
    [128, 128, 64, 64, 16384, PITCH],
    [127, 127, 1, 1, 16129, PITCH],
    [2, 2, 1, 1, 0, PITCH],
];

// Of several cells that fit the first: in the entry's row and in one above it, in a column and in a row,
// and far from the top on panels of three columns and of three rows.
const FIRST_OF_SEVERAL: [[u32; 6]; 16] = [
    [4, 4, 1, 1, 16, PITCH],
    [4, 4, 2, 1, 16, PITCH],
    [4, 4, 4, 4, 16, PITCH],
    [4, 4, 1, 1, 15, PITCH],
    [3, 3, 1, 1, 9, PITCH],
    [3, 3, 3, 3, 9, PITCH],
    [3, 3, 2, 1, 8, PITCH],
    [1, 5, 1, 2, 3, PITCH],
    [1, 5, 1, 5, 3, PITCH],
    [3, 128, 2, 128, 384, PITCH],
    [3, 128, 2, 128, 383, PITCH],
    [128, 3, 128, 2, 384, PITCH],
    [127, 127, 127, 126, 16128, PITCH],
    [128, 128, 128, 128, 16384, PITCH],
    [1, 2, 1, 1, 1, PITCH],
    [2, 1, 2, 1, 2, PITCH],
];

// A wanted count of 0 or 1, which the entry alone would have: another cell is given, or none on one cell.
const NEVER_THE_ENTRY: [[u32; 6]; 10] = [
    [1, 1, 1, 1, 0, PITCH],
    [1, 1, 1, 1, 1, PITCH],
    [1, 1, 1, 1, 2, PITCH],
    [2, 1, 1, 1, 0, PITCH],
    [2, 1, 1, 1, 1, PITCH],
    [1, 3, 1, 1, 1, PITCH],
    [3, 3, 1, 1, 1, PITCH],
    [3, 3, 2, 1, 0, PITCH],
    [128, 128, 1, 1, 1, PITCH],
    [128, 128, 128, 128, 0, PITCH],
];

// Wanted counts that the colours rule out, by one: all cells of an odd panel from a black entry, and one
// cell more than there are.
const RULED_OUT: [[u32; 6]; 7] = [
    [3, 3, 2, 1, 9, PITCH],
    [3, 3, 1, 1, 10, PITCH],
    [5, 1, 4, 1, 5, PITCH],
    [4, 4, 1, 1, 17, PITCH],
    [127, 127, 126, 127, 16129, PITCH],
    [127, 127, 127, 127, 16130, PITCH],
    [128, 128, 1, 1, 16385, PITCH],
];

// Wanted counts that no cell has, and input that is refused before.
const REFUSED: [[u32; 6]; 12] = [
    [5, 1, 3, 1, 4, PITCH],
    [3, 3, 1, 2, 9, PITCH],
    [127, 127, 1, 2, 16129, PITCH],
    [4, 3, 1, 2, 13, PITCH],
    [4, 3, 1, 2, MAX, PITCH],
    [0, 3, 1, 2, 1, PITCH],
    [129, 3, 1, 2, 1, PITCH],
    [3, 129, 0, 0, MAX, PITCH],
    [MAX, MAX, MAX, MAX, MAX, MAX],
    [4, 3, 0, 1, 1, PITCH],
    [4, 3, 1, 4, 1, PITCH],
    [4, 3, MAX, 1, MAX, PITCH],
];

// Pitches at the ends of their range and outside it.
const PITCHES: [[u32; 6]; 6] = [
    [4, 3, 1, 2, 12, 999],
    [4, 3, 1, 2, 12, 1000],
    [4, 3, 1, 2, 12, 10000],
    [4, 3, 1, 2, 12, 10001],
    [4, 3, 1, 2, 12, 0],
    [4, 3, 1, 2, 12, MAX],
];

// A bad pitch behind a bad side, then before an entry off the panel and before a count that no cell
// has; then these two with a good pitch.
const PITCH_AND_MORE: [[u32; 6]; 7] = [
    [0, 3, 1, 2, 1, 999],
    [4, 129, 1, 2, 1, MAX],
    [4, 3, 0, 1, 1, 999],
    [4, 3, 1, 2, 13, 10001],
    [1, 1, 2, 1, MAX, 0],
    [4, 3, 0, 1, 1, 1000],
    [4, 3, 1, 2, 13, 10000],
];

fn answer(rt: &impl Print, numbers: [u32; 6]) -> io::Result<()> {
    row(rt, &numbers, b": ")?;
    let [m, n, x, y, wanted, pitch] = numbers;
    match find_exit(panel_of(m, n, pitch), Cell { x, y }, Cells(wanted)) {
        Err(r) => row(rt, &[u32::from(r), 0, 0], b"\n"),
        Ok(c) => row(rt, &[0, c.x, c.y], b"\n"),
    }
}

fn answer_all(rt: &impl Print, asked: &[[u32; 6]]) -> io::Result<()> {
    for &numbers in asked {
        answer(rt, numbers)?;
    }
    Ok(())
}

fn main(rt: HostRuntime) -> io::Result<()> {
    answer_all(&rt, &FOUND)?;
    answer_all(&rt, &FIRST_OF_SEVERAL)?;
    answer_all(&rt, &NEVER_THE_ENTRY)?;
    answer_all(&rt, &RULED_OUT)?;
    answer_all(&rt, &REFUSED)?;
    answer_all(&rt, &PITCHES)?;
    answer_all(&rt, &PITCH_AND_MORE)
}
