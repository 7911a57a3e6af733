// Answers Ring for some panels and buffers. A line gives the sides, the buffer's size and the pitch and, behind
// the colon, the refusal's number (0: none), the count and the last cell, then what a plain look at all bytes
// of a larger buffer, filled with 7 before, says: `closed`, the cells are a track from (1, 1) whose last
// cell is a neighbour of its first, and the bytes behind are 7; a refusal has no cell, and `untouched`, all
// bytes are 7; else `FAULT`.
#![tactic(auto)]

use grid::{Cell, Cells, Order, Panel, Refusal, panel_of};
use ring::ring;
use std::io;
use trial::PITCH;
use trial::cells::{cell_at, filled, is_closed, is_track};
use trial::print::{row, text};

// What the buffer is filled with.
const FILL: u8 = 7;

// The largest number of 32 bits.
const MAX: u32 = 4294967295;

// Whether the first k cells are a closed track from (1, 1), and the bytes behind are as before.
fn closed(buf: &[u8], p: Panel, last: Cell, k: u32) -> bool {
    let first = Cell { x: 1, y: 1 };
    let o = Order {
        panel: p,
        entry: first,
        exit: last,
    };
    is_track(buf, o, first, k) && is_closed(buf, k) && filled(buf, 2 * (k as usize), FILL)
}

fn word(rt: &impl Print, right: bool, name: &[u8]) -> io::Result<()> {
    text(rt, if right { name } else { b"FAULT\n" })
}

fn report(rt: &impl Print, buf: &[u8], p: Panel, a: Result<Cells, Refusal>) -> io::Result<()> {
    match a {
        Err(r) => {
            row(rt, &[u32::from(r), 0], b" ")?;
            word(rt, filled(buf, 0, FILL), b"untouched\n")
        }
        Ok(Cells(count)) => {
            let last = cell_at(buf, count.saturating_sub(1));
            row(rt, &[0, count, last.x, last.y], b" ")?;
            word(rt, closed(buf, p, last, count), b"closed\n")
        }
    }
}

// Ring in the first `size` bytes of a buffer that is filled.
fn answer_in(rt: &impl Print, p: Panel, size: usize, buf: &mut [u8]) -> io::Result<()> {
    if size <= buf.len() {
        let a = ring(p, &mut buf[..size]);
        report(rt, buf, p, a)?;
    }
    Ok(())
}

fn answer_at(rt: &impl Print, width: u32, height: u32, size: u32, pitch: u32) -> io::Result<()> {
    let mut buf = [FILL; 40000];
    row(rt, &[width, height, size, pitch], b": ")?;
    answer_in(rt, panel_of(width, height, pitch), size as usize, &mut buf)
}

// A panel of the usual pitch.
fn answer(rt: &impl Print, width: u32, height: u32, size: u32) -> io::Result<()> {
    answer_at(rt, width, height, size, PITCH)
}

// Pitches at the ends of their range and outside it.
fn pitches(rt: &impl Print) -> io::Result<()> {
    answer_at(rt, 4, 3, 24, 999)?;
    answer_at(rt, 4, 3, 24, 1000)?;
    answer_at(rt, 4, 3, 24, 10000)?;
    answer_at(rt, 4, 3, 24, 10001)?;
    answer_at(rt, 4, 3, 24, 0)?;
    answer_at(rt, 4, 3, 24, MAX)
}

// A bad pitch behind a bad side, then before a side of 1 and before a short buffer; then these two with
// a good pitch.
fn pitch_and_more(rt: &impl Print) -> io::Result<()> {
    answer_at(rt, 0, 5, 40000, 999)?;
    answer_at(rt, 129, 1, 0, MAX)?;
    answer_at(rt, 1, 128, 40000, 999)?;
    answer_at(rt, 3, 3, 15, 10001)?;
    answer_at(rt, 1, 1, 0, 0)?;
    answer_at(rt, 1, 128, 40000, 1000)?;
    answer_at(rt, 3, 3, 15, 10000)
}

fn main(rt: HostRuntime) -> io::Result<()> {
    answer(&rt, 2, 2, 8)?;
    answer(&rt, 3, 2, 12)?;
    answer(&rt, 2, 3, 12)?;
    answer(&rt, 3, 3, 16)?;
    answer(&rt, 3, 3, 15)?;
    answer(&rt, 4, 3, 40000)?;
    answer(&rt, 5, 5, 48)?;
    answer(&rt, 7, 4, 56)?;
    answer(&rt, 128, 128, 32768)?;
    answer(&rt, 128, 128, 32767)?;
    answer(&rt, 127, 127, 32256)?;
    answer(&rt, 127, 127, 32255)?;
    answer(&rt, 128, 2, 512)?;
    answer(&rt, 1, 1, 40000)?;
    answer(&rt, 1, 128, 40000)?;
    answer(&rt, 128, 1, 40000)?;
    answer(&rt, 0, 5, 40000)?;
    answer(&rt, 5, 0, 0)?;
    answer(&rt, 129, 2, 40000)?;
    answer(&rt, 2, MAX, 40000)?;
    pitches(&rt)?;
    pitch_and_more(&rt)
}
