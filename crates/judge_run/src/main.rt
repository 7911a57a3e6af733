// Runs Judge on lists with each fault, with several at once in both orders, longer than the panel, and on
// the largest panel. Each line gives the refusal (0 where accepted), the count, and how many bytes of scratch,
// filled with 255 before, are 0 and 255 after.
#![tactic(auto)]

use grid::{Cell, CellsValues, Order, Panel, panel_of};
use std::io;
use trial::PITCH;
use trial::cells::{count, put, snake};
use trial::print::{row, text};

// The largest number of 32 bits.
const MAX: u32 = 4294967295;

// The ends of the lists on the panel of 3 by 2.
const ENTRY: Cell = Cell { x: 1, y: 1 };

const EXIT: Cell = Cell { x: 1, y: 2 };

// The list of two cells from the one to the other.
const TWO_CELLS: &[u8] = b"\x01\x01\x01\x02";

fn try_order(rt: &impl Print, o: Order, list: &[u8], scratch: &mut [u8]) -> io::Result<()> {
    scratch.fill(255);
    let v = CellsValues::from(judge::judge(o, list, scratch));
    let zeros = count(scratch, 0);
    let kept = count(scratch, 255);
    row(rt, &[v.refusal, v.cells.0, zeros, kept], b"\n")
}

fn between(panel: Panel, entry: Cell, exit: Cell) -> Order {
    Order { panel, entry, exit }
}

// A list on the panel of 3 by 2, from (1,1) to (1,2), with 8 bytes of scratch.
fn try_list_at(rt: &impl Print, list: &[u8], pitch: u32) -> io::Result<()> {
    let mut scratch = [0u8; 8];
    try_order(
        rt,
        between(panel_of(3, 2, pitch), ENTRY, EXIT),
        list,
        &mut scratch,
    )
}

// The same with the usual pitch.
fn try_list(rt: &impl Print, list: &[u8]) -> io::Result<()> {
    try_list_at(rt, list, PITCH)
}

// The list of two cells (1,1) and (1,2), with some of the order's numbers and of scratch changed.
fn try_panel(rt: &impl Print, p: Panel, scratch: &mut [u8]) -> io::Result<()> {
    try_order(rt, between(p, ENTRY, EXIT), TWO_CELLS, scratch)
}

fn try_sides(rt: &impl Print, width: u32, height: u32, scratch: &mut [u8]) -> io::Result<()> {
    try_panel(rt, panel_of(width, height, PITCH), scratch)
}

fn try_pitch(rt: &impl Print, pitch: u32, scratch: &mut [u8]) -> io::Result<()> {
    try_panel(rt, panel_of(3, 2, pitch), scratch)
}

fn try_ends_at(rt: &impl Print, ex: u32, ey: u32, tx: u32, ty: u32, pitch: u32) -> io::Result<()> {
    let mut scratch = [0u8; 8];
    let entry = Cell { x: ex, y: ey };
    let exit = Cell { x: tx, y: ty };
    let o = between(panel_of(3, 2, pitch), entry, exit);
    try_order(rt, o, TWO_CELLS, &mut scratch)
}

fn try_ends(rt: &impl Print, ex: u32, ey: u32, tx: u32, ty: u32) -> io::Result<()> {
    try_ends_at(rt, ex, ey, tx, ty, PITCH)
}

// 1, 5, 2 and 3, where the list is good but for what is named; at last equal terminals, which the list does not
// end at.
fn orders(rt: &impl Print) -> io::Result<()> {
    text(rt, b"1, 5, 2, 3:\n")?;
    let mut enough = [0u8; 8];
    try_sides(rt, 3, 2, &mut enough)?;
    try_sides(rt, 0, 2, &mut enough)?;
    try_sides(rt, 3, 129, &mut enough)?;
    try_sides(rt, MAX, MAX, &mut enough)?;
    let mut short = [0u8; 5];
    try_sides(rt, 3, 2, &mut short)?;
    let mut exact = [0u8; 6];
    try_sides(rt, 3, 2, &mut exact)?;
    try_ends(rt, 4, 1, 1, 2)?;
    try_ends(rt, 1, 0, 1, 3)?;
    try_ends(rt, 1, 1, MAX, 2)?;
    try_ends(rt, 1, 1, 1, 1)
}

// 18: pitches at the ends of their range and outside it; then with a bad side, which is tested before.
fn pitches(rt: &impl Print) -> io::Result<()> {
    text(rt, b"18:\n")?;
    let mut scratch = [0u8; 8];
    try_pitch(rt, 999, &mut scratch)?;
    try_pitch(rt, 1000, &mut scratch)?;
    try_pitch(rt, 10000, &mut scratch)?;
    try_pitch(rt, 10001, &mut scratch)?;
    try_pitch(rt, 0, &mut scratch)?;
    try_pitch(rt, MAX, &mut scratch)?;
    try_panel(rt, panel_of(0, 2, 999), &mut scratch)?;
    try_panel(rt, panel_of(3, 129, MAX), &mut scratch)
}

// 18 with each fault that is tested after it: 2, 3, 6, 5, 7, 8, 9 and 11, one of them with equal terminals.
fn pitch_and_more(rt: &impl Print) -> io::Result<()> {
    try_ends_at(rt, 4, 1, 1, 2, 999)?;
    try_ends_at(rt, 1, 1, 1, 3, 10001)?;
    try_ends_at(rt, 1, 1, 1, 1, 0)?;
    try_list_at(rt, b"", 999)?;
    let mut short = [0u8; 5];
    try_pitch(rt, 10001, &mut short)?;
    try_list_at(rt, b"\x01\x01\x01\x02\x01\x03", 999)?;
    try_list_at(rt, b"\x01\x01\x02\x02\x01\x02", 10001)?;
    try_list_at(rt, b"\x01\x01\x02\x01\x01\x01\x01\x02", 0)?;
    try_list_at(rt, b"\x01\x02\x01\x01", MAX)
}

// Accepted lists, and 6.
fn lengths(rt: &impl Print) -> io::Result<()> {
    text(rt, b"6:\n")?;
    try_list(rt, b"\x01\x01\x02\x01\x03\x01\x03\x02\x02\x02\x01\x02")?;
    try_list(rt, b"\x01\x01\x02\x01\x02\x02\x01\x02")?;
    try_list(rt, b"")?;
    try_list(rt, b"\x01")?;
    try_list(rt, b"\x01\x01\x01\x02\x01")
}

// 7: below and above each side, at the front and at the end; with 8 before and behind.
fn off_panel(rt: &impl Print) -> io::Result<()> {
    text(rt, b"7:\n")?;
    try_list(rt, b"\x00\x01\x01\x01\x01\x02")?;
    try_list(rt, b"\x01\x01\x01\x02\x01\x03")?;
    try_list(rt, b"\x01\x01\x01\x00\x01\x02")?;
    try_list(rt, b"\x01\x01\x04\x01\x01\x02")?;
    try_list(rt, b"\x01\x01\xff\xff\x01\x02")?;
    try_list(rt, b"\x01\x01\x03\x01\x04\x01\x01\x02")?;
    try_list(rt, b"\x04\x01\x03\x01\x01\x01\x01\x02")
}

// 8: a cell left out, a cell twice on end, a diagonal, row's end to row's start; with 9 before and
// behind.
fn not_neighbours(rt: &impl Print) -> io::Result<()> {
    text(rt, b"8:\n")?;
    try_list(rt, b"\x01\x01\x03\x01\x03\x02\x02\x02\x01\x02")?;
    try_list(rt, b"\x01\x01\x01\x01\x01\x02")?;
    try_list(rt, b"\x01\x01\x02\x02\x01\x02")?;
    try_list(rt, b"\x01\x01\x02\x01\x03\x01\x01\x02")?;
    try_list(rt, b"\x01\x01\x02\x01\x01\x01\x03\x01\x02\x01\x01\x02")?;
    try_list(
        rt,
        b"\x01\x01\x03\x01\x02\x01\x03\x01\x03\x02\x02\x02\x01\x02",
    )
}

// 9: near, far, at the ends, with more than mn cells; with 11.
fn repeated(rt: &impl Print) -> io::Result<()> {
    text(rt, b"9:\n")?;
    try_list(rt, b"\x01\x01\x02\x01\x01\x01\x01\x02")?;
    try_list(
        rt,
        b"\x01\x01\x02\x01\x03\x01\x03\x02\x02\x02\x01\x02\x01\x01",
    )?;
    try_list(rt, b"\x01\x01\x01\x02\x02\x02\x02\x01\x01\x01\x01\x02")?;
    try_list(
        rt,
        b"\x01\x01\x01\x02\x01\x01\x01\x02\x01\x01\x01\x02\x01\x01\x01\x02",
    )?;
    try_list(rt, b"\x03\x01\x02\x01\x03\x01")
}

// More cells than the panel has. Behind a track over all of it: two cells again, with 11 and without; all of them;
// a cell off the panel, below it and left of it; a repeat and then a cell off the panel, and the other way round; a
// jump to a cell passed before, alone and with a cell off the panel behind it. At last around the panel, back to
// where it began, for equal terminals.
fn longer(rt: &impl Print) -> io::Result<()> {
    text(rt, b"longer than the panel:\n")?;
    try_list(
        rt,
        b"\x01\x01\x02\x01\x03\x01\x03\x02\x02\x02\x01\x02\x01\x01\x02\x01",
    )?;
    try_list(
        rt,
        b"\x01\x01\x02\x01\x03\x01\x03\x02\x02\x02\x01\x02\x01\x01\x01\x02",
    )?;
    try_list(
        rt,
        b"\x01\x01\x02\x01\x03\x01\x03\x02\x02\x02\x01\x02\x01\x01\x02\x01\x03\x01\x03\x02\x02\x02\x01\x02",
    )?;
    try_list(
        rt,
        b"\x01\x01\x02\x01\x03\x01\x03\x02\x02\x02\x01\x02\x01\x03",
    )?;
    try_list(
        rt,
        b"\x01\x01\x02\x01\x03\x01\x03\x02\x02\x02\x01\x02\x00\x02",
    )?;
    try_list(
        rt,
        b"\x01\x01\x02\x01\x03\x01\x03\x02\x02\x02\x01\x02\x01\x01\x01\x00",
    )?;
    try_list(
        rt,
        b"\x01\x01\x02\x01\x03\x01\x03\x02\x02\x02\x01\x02\x01\x03\x01\x02",
    )?;
    try_list(
        rt,
        b"\x01\x01\x02\x01\x03\x01\x03\x02\x02\x02\x01\x02\x02\x01\x01\x01\x01\x02",
    )?;
    try_list(
        rt,
        b"\x01\x01\x02\x01\x03\x01\x03\x02\x02\x02\x01\x02\x02\x01\x01\x01\x01\x00",
    )?;
    try_spot(
        rt,
        b"\x02\x01\x01\x01\x01\x02\x02\x02\x03\x02\x03\x01\x02\x01",
    )
}

// 11: the first, the last, both, and backwards.
fn wrong_ends(rt: &impl Print) -> io::Result<()> {
    text(rt, b"11:\n")?;
    try_list(rt, b"\x02\x01\x01\x01\x01\x02")?;
    try_list(rt, b"\x01\x01\x02\x01\x02\x02")?;
    try_list(rt, b"\x02\x01\x03\x01")?;
    try_list(rt, b"\x01\x02\x01\x01")?;
    try_list(rt, b"\x01\x01")
}

// Two faults in both orders where the lists above have one, and three in every order: a cell off the
// panel (0,1), a jump from (1,1) to (3,1), and (3,2) twice.
fn three_faults(rt: &impl Print) -> io::Result<()> {
    text(rt, b"7, 8, 9:\n")?;
    try_list(rt, b"\x01\x01\x02\x01\x01\x01\x00\x01\x01\x02")?;
    try_list(rt, b"\x00\x01\x01\x01\x02\x01\x01\x01\x01\x02")?;
    try_list(rt, b"\x00\x01\x01\x01\x03\x01\x03\x02\x02\x02\x03\x02")?;
    try_list(rt, b"\x00\x01\x03\x02\x02\x02\x03\x02\x01\x01\x03\x01")?;
    try_list(rt, b"\x01\x01\x03\x01\x00\x01\x03\x02\x02\x02\x03\x02")?;
    try_list(rt, b"\x01\x01\x03\x01\x03\x02\x02\x02\x03\x02\x00\x01")?;
    try_list(rt, b"\x03\x02\x02\x02\x03\x02\x00\x01\x01\x01\x03\x01")?;
    try_list(rt, b"\x03\x02\x02\x02\x03\x02\x01\x01\x03\x01\x00\x01")
}

// 11 in front or at the end, with 8 and 9 in both orders; then with one of them, and with 7.
fn faults_and_ends(rt: &impl Print) -> io::Result<()> {
    text(rt, b"8, 9, 11:\n")?;
    try_list(rt, b"\x01\x01\x03\x01\x02\x01\x03\x01\x03\x02")?;
    try_list(rt, b"\x01\x01\x02\x01\x01\x01\x03\x01\x03\x02")?;
    try_list(rt, b"\x02\x01\x03\x02\x03\x01\x03\x02\x02\x02\x01\x02")?;
    try_list(rt, b"\x02\x01\x01\x01\x02\x01\x03\x02\x02\x02\x01\x02")?;
    try_list(rt, b"\x02\x01\x03\x02\x02\x02\x01\x02")?;
    try_list(rt, b"\x01\x01\x02\x01\x01\x01\x02\x01")?;
    try_list(rt, b"\x02\x01\x02\x02\x02\x03")?;
    try_list(rt, b"\x01\x01\x02\x01\x02\x00")
}

// One cell: off the panel, the entry, the exit, another.
fn one_cell(rt: &impl Print) -> io::Result<()> {
    text(rt, b"one cell:\n")?;
    try_list(rt, b"\x04\x01")?;
    try_list(rt, b"\x01\x01")?;
    try_list(rt, b"\x01\x02")?;
    try_list(rt, b"\x03\x02")
}

// A list on the panel of 3 by 2, both leads on (2,1).
fn try_spot(rt: &impl Print, list: &[u8]) -> io::Result<()> {
    let mut scratch = [0u8; 8];
    let c = Cell { x: 2, y: 1 };
    try_order(rt, between(panel_of(3, 2, PITCH), c, c), list, &mut scratch)
}

// Equal terminals: the cell itself; another; a cell off the panel; two cells from it, to it and off the panel;
// the cell twice on end; there and back; around a square; around it to another cell, and with a jump.
fn equal_terminals(rt: &impl Print) -> io::Result<()> {
    text(rt, b"equal terminals:\n")?;
    try_spot(rt, b"\x02\x01")?;
    try_spot(rt, b"\x01\x01")?;
    try_spot(rt, b"\x02\x03")?;
    try_spot(rt, b"\x02\x01\x01\x01")?;
    try_spot(rt, b"\x01\x01\x02\x01")?;
    try_spot(rt, b"\x02\x01\x02\x00")?;
    try_spot(rt, b"\x02\x01\x02\x01")?;
    try_spot(rt, b"\x02\x01\x01\x01\x02\x01")?;
    try_spot(rt, b"\x02\x01\x03\x01\x03\x02\x02\x02\x02\x01")?;
    try_spot(rt, b"\x02\x01\x03\x01\x03\x02\x02\x02\x01\x02")?;
    try_spot(rt, b"\x02\x01\x03\x02\x02\x02\x02\x01")?;
    try_spot(rt, b"")
}

// The smallest panel, with scratch for its cell, with more and with none.
fn smallest(rt: &impl Print) -> io::Result<()> {
    let o = between(panel_of(1, 1, PITCH), ENTRY, ENTRY);
    let one = b"\x01\x01";
    let mut exact = [0u8; 1];
    try_order(rt, o, one, &mut exact)?;
    let mut more = [0u8; 3];
    try_order(rt, o, one, &mut more)?;
    let mut none = [0u8; 0];
    try_order(rt, o, one, &mut none)
}

// The first bytes of the snake, its last cell changed to (x, y), on the panel of 128 by 128 from
// (1,1) to the exit, with the first bytes of scratch.
fn try_large(
    rt: &impl Print,
    bytes: usize,
    x: u8,
    y: u8,
    exit: Cell,
    room: usize,
) -> io::Result<()> {
    let mut list = [0u8; 65536];
    let mut scratch = [0u8; 65536];
    snake(&mut list);
    if 2 <= bytes && bytes <= list.len() && room <= scratch.len() {
        list[bytes - 2] = x;
        list[bytes - 1] = y;
        let o = between(panel_of(128, 128, PITCH), ENTRY, exit);
        try_order(rt, o, &list[..bytes], &mut scratch[..room])?;
    }
    Ok(())
}

// All cells of the largest panel, with the right exit and another, and with scratch too short; then
// with a cell more, the one above the last and one off the panel; two rows with their first cell
// again at the end; and the last cell changed to the first, which is 8, 9 and 11, and to the one
// before the last but one, which is 9 and 11.
fn large(rt: &impl Print) -> io::Result<()> {
    text(rt, b"128 by 128:\n")?;
    try_large(rt, 32768, 1, 128, Cell { x: 1, y: 128 }, 16400)?;
    try_large(rt, 32768, 1, 128, Cell { x: 2, y: 128 }, 16400)?;
    try_large(rt, 32768, 1, 128, Cell { x: 1, y: 128 }, 16383)?;
    try_large(rt, 32770, 1, 127, Cell { x: 1, y: 127 }, 16400)?;
    try_large(rt, 32770, 1, 129, Cell { x: 1, y: 128 }, 16400)?;
    try_large(rt, 514, 1, 1, Cell { x: 1, y: 2 }, 16400)?;
    try_large(rt, 32768, 1, 1, Cell { x: 1, y: 128 }, 16400)?;
    try_large(rt, 32768, 3, 128, Cell { x: 1, y: 128 }, 16400)
}

// All cells of the largest panel and two more.
fn try_two_more(rt: &impl Print, a: Cell, b: Cell) -> io::Result<()> {
    let mut list = [0u8; 32772];
    let mut scratch = [0u8; 16400];
    snake(&mut list);
    put(&mut list, 16384, a);
    put(&mut list, 16385, b);
    let o = between(panel_of(128, 128, PITCH), ENTRY, Cell { x: 1, y: 128 });
    try_order(rt, o, &list, &mut scratch)
}

// A repeat and the last cell once more, which is the exit; a repeat and a cell off the panel, and the other way
// round.
fn large_and_longer(rt: &impl Print) -> io::Result<()> {
    let above = Cell { x: 1, y: 127 };
    let below = Cell { x: 1, y: 129 };
    let last = Cell { x: 1, y: 128 };
    try_two_more(rt, above, last)?;
    try_two_more(rt, above, Cell { x: 0, y: 127 })?;
    try_two_more(rt, below, last)
}

fn main(rt: HostRuntime) -> io::Result<()> {
    orders(&rt)?;
    pitches(&rt)?;
    pitch_and_more(&rt)?;
    lengths(&rt)?;
    off_panel(&rt)?;
    not_neighbours(&rt)?;
    repeated(&rt)?;
    longer(&rt)?;
    wrong_ends(&rt)?;
    three_faults(&rt)?;
    faults_and_ends(&rt)?;
    one_cell(&rt)?;
    equal_terminals(&rt)?;
    smallest(&rt)?;
    large(&rt)?;
    large_and_longer(&rt)
}
