// Runs Probe on probes that are found, repeated, missed and off the panel, with each of Judge's refusals,
// and on the smallest and the largest panel. Each line gives the refusal (0 where the sheet is given), the
// cells read, how many bytes of scratch, filled with 255 before, are 0 and 255 after, and how many places
// behind the used ones are not all 0; behind the colon, of each used place, the position and the nearest cell,
// eight places to a line. A refusal gives no sheet: its line has 0 for the cells read and for the places. At
// last, for orders made up by a fixed sequence, how often a sheet was given and how often refused as by a plain
// peer, with the same scratch, and how often it differed.
#![tactic(auto)]

mod made_up;
mod peer;

use crate::peer::numbers_of;
use grid::{Cell, Order, panel_of};
use std::io;
use trial::PITCH;
use trial::cells::{count, put, repeat, snake, spread};
use trial::plain::Sheet;
use trial::print::{row, text};

// The largest number of 32 bits.
const MAX: u32 = 4294967295;

// ---- a line

fn order_of(width: u32, height: u32, entry: Cell, exit: Cell) -> Order {
    Order {
        panel: panel_of(width, height, PITCH),
        entry,
        exit,
    }
}

// How many places from `used` on are not blank.
fn not_blank(s: Sheet, used: usize) -> u32 {
    let mut n: u32 = 0;
    for i in used..64 {
        if s.positions[i] != 0 || s.nearest[i] != (Cell { x: 0, y: 0 }) {
            n = n.wrapping_add(1);
        }
    }
    n
}

// What stands before place i.
fn print_gap(rt: &impl Print, i: usize) -> io::Result<()> {
    if i == 0 {
        return text(rt, b" ");
    }
    if i % 8 == 0 {
        return text(rt, b",\n    ");
    }
    text(rt, b", ")
}

fn print_places(rt: &impl Print, s: Sheet, used: usize) -> io::Result<()> {
    for i in 0..used.min(64) {
        print_gap(rt, i)?;
        let c = s.nearest[i];
        row(rt, &[s.positions[i], c.x, c.y], b"")?;
    }
    Ok(())
}

fn try_probes(
    rt: &impl Print,
    o: Order,
    list: &[u8],
    scratch: &mut [u8],
    probes: &[u8],
) -> io::Result<()> {
    scratch.fill(255);
    let answer = probe::probe(o, list, scratch, probes);
    let zeros = count(scratch, 0);
    let kept = count(scratch, 255);
    match answer {
        Ok(sheet) => {
            let s = numbers_of(sheet);
            let used = probes.len() / 2;
            row(rt, &[0, s.read, zeros, kept, not_blank(s, used)], b":")?;
            print_places(rt, s, used)?;
            text(rt, b"\n")
        }
        Err(r) => row(rt, &[u32::from(r), 0, zeros, kept, 0], b":\n"),
    }
}

// ---- 3 by 2

// A list on the panel of 3 by 2, from (1,1) to (1,2), with 8 bytes of scratch.
fn try_list(rt: &impl Print, list: &[u8], probes: &[u8]) -> io::Result<()> {
    let mut scratch = [0u8; 8];
    let o = order_of(3, 2, Cell { x: 1, y: 1 }, Cell { x: 1, y: 2 });
    try_probes(rt, o, list, &mut scratch, probes)
}

// The track over all cells.
fn try_whole(rt: &impl Print, probes: &[u8]) -> io::Result<()> {
    try_list(
        rt,
        b"\x01\x01\x02\x01\x03\x01\x03\x02\x02\x02\x01\x02",
        probes,
    )
}

// The track of two cells.
fn try_short(rt: &impl Print, probes: &[u8]) -> io::Result<()> {
    try_list(rt, b"\x01\x01\x01\x02", probes)
}

// One cell again and again, in so many bytes.
fn try_repeated(rt: &impl Print, x: u32, y: u32, bytes: usize) -> io::Result<()> {
    let mut probes = [0u8; 140];
    repeat(&mut probes, Cell { x, y });
    if bytes <= 140 {
        try_whole(rt, &probes[..bytes])?;
        try_short(rt, &probes[..bytes])?;
    }
    Ok(())
}

// None; the first, the second, the last cell; the first two; both ends; all, forwards and backwards.
fn found(rt: &impl Print) -> io::Result<()> {
    text(rt, b"found:\n")?;
    try_whole(rt, b"")?;
    try_whole(rt, b"\x01\x01")?;
    try_whole(rt, b"\x02\x01")?;
    try_whole(rt, b"\x01\x02")?;
    try_whole(rt, b"\x02\x01\x01\x01")?;
    try_whole(rt, b"\x01\x02\x01\x01")?;
    try_whole(rt, b"\x01\x01\x02\x01\x03\x01\x03\x02\x02\x02\x01\x02")?;
    try_whole(rt, b"\x01\x02\x02\x02\x03\x02\x03\x01\x02\x01\x01\x01")?;
    try_short(rt, b"")?;
    try_short(rt, b"\x01\x02")
}

// A cell twice, on end and apart, found and missed; then 64 times: the first, the last, the third.
fn repeated(rt: &impl Print) -> io::Result<()> {
    text(rt, b"repeated:\n")?;
    try_whole(rt, b"\x02\x02\x02\x02")?;
    try_whole(rt, b"\x03\x01\x01\x01\x03\x01")?;
    try_short(rt, b"\x02\x02\x02\x02")?;
    try_short(rt, b"\x03\x01\x01\x01\x03\x01\x01\x01")?;
    try_repeated(rt, 1, 1, 128)?;
    try_repeated(rt, 1, 2, 128)?;
    try_repeated(rt, 3, 1, 128)
}

// Some probe missed: alone; behind, between and before found ones; all of them.
fn missed(rt: &impl Print) -> io::Result<()> {
    text(rt, b"missed:\n")?;
    try_short(rt, b"\x02\x01")?;
    try_short(rt, b"\x03\x02")?;
    try_short(rt, b"\x01\x01\x03\x01")?;
    try_short(rt, b"\x01\x01\x02\x02\x01\x02")?;
    try_short(rt, b"\x02\x01\x01\x01")?;
    try_short(rt, b"\x02\x01\x03\x01\x03\x02\x02\x02")
}

// 20: odd bytes, and around 64 probes.
fn probe_bytes(rt: &impl Print) -> io::Result<()> {
    text(rt, b"20:\n")?;
    try_repeated(rt, 1, 1, 1)?;
    try_repeated(rt, 1, 1, 2)?;
    try_repeated(rt, 1, 1, 3)?;
    try_repeated(rt, 1, 1, 126)?;
    try_repeated(rt, 1, 1, 127)?;
    try_repeated(rt, 1, 1, 129)?;
    try_repeated(rt, 1, 1, 130)?;
    try_repeated(rt, 1, 1, 131)?;
    try_repeated(rt, 9, 9, 130)?;
    try_repeated(rt, 9, 9, 1)?;
    let many = [1u8; 32768];
    try_whole(rt, &many)
}

// 7: a probe below and above each side.
fn off_alone(rt: &impl Print) -> io::Result<()> {
    text(rt, b"7:\n")?;
    try_whole(rt, b"\x00\x01")?;
    try_whole(rt, b"\x01\x00")?;
    try_whole(rt, b"\x00\x00")?;
    try_whole(rt, b"\x04\x01")?;
    try_whole(rt, b"\x01\x03")?;
    try_whole(rt, b"\x81\x01")?;
    try_whole(rt, b"\x01\x81")?;
    try_whole(rt, b"\xff\x01")?;
    try_whole(rt, b"\x01\xff")?;
    try_whole(rt, b"\xff\xff")
}

// 7: first, between and last of several; the 64th.
fn off_among(rt: &impl Print) -> io::Result<()> {
    try_whole(rt, b"\x04\x01\x01\x01\x02\x01")?;
    try_whole(rt, b"\x01\x01\x04\x01\x02\x01")?;
    try_whole(rt, b"\x01\x01\x02\x01\x04\x01")?;
    try_short(rt, b"\x02\x01\x02\x03")?;
    let mut probes = [1u8; 128];
    put(&mut probes, 63, Cell { x: 3, y: 3 });
    try_whole(rt, &probes)
}

// ---- Judge's refusals

// The list of two cells (1,1) and (1,2), which is good but for what the order says.
fn try_order(rt: &impl Print, o: Order, probes: &[u8]) -> io::Result<()> {
    let mut scratch = [0u8; 8];
    try_probes(rt, o, b"\x01\x01\x01\x02", &mut scratch, probes)
}

fn try_panel(
    rt: &impl Print,
    width: u32,
    height: u32,
    pitch: u32,
    probes: &[u8],
) -> io::Result<()> {
    let o = Order {
        panel: panel_of(width, height, pitch),
        entry: Cell { x: 1, y: 1 },
        exit: Cell { x: 1, y: 2 },
    };
    try_order(rt, o, probes)
}

fn try_ends(rt: &impl Print, entry: Cell, exit: Cell, probes: &[u8]) -> io::Result<()> {
    try_order(rt, order_of(3, 2, entry, exit), probes)
}

// So much scratch, for six cells.
fn try_room(rt: &impl Print, room: usize, probes: &[u8]) -> io::Result<()> {
    let mut scratch = [0u8; 8];
    let o = order_of(3, 2, Cell { x: 1, y: 1 }, Cell { x: 1, y: 2 });
    if room <= 8 {
        try_probes(rt, o, b"\x01\x01\x01\x02", &mut scratch[..room], probes)?;
    }
    Ok(())
}

// 1, 18, 2 and 3.
fn bad_orders(rt: &impl Print, probes: &[u8]) -> io::Result<()> {
    try_panel(rt, 0, 2, PITCH, probes)?;
    try_panel(rt, 3, 129, PITCH, probes)?;
    try_panel(rt, MAX, MAX, PITCH, probes)?;
    try_panel(rt, 3, 2, 999, probes)?;
    try_panel(rt, 3, 2, 10001, probes)?;
    let corner = Cell { x: 1, y: 1 };
    try_ends(rt, Cell { x: 4, y: 1 }, corner, probes)?;
    try_ends(rt, Cell { x: 0, y: MAX }, corner, probes)?;
    try_ends(rt, corner, Cell { x: 1, y: 3 }, probes)?;
    try_ends(rt, corner, Cell { x: MAX, y: 0 }, probes)
}

// 6, 5, 7, 8, 9 and 11.
fn bad_lists(rt: &impl Print, probes: &[u8]) -> io::Result<()> {
    try_list(rt, b"", probes)?;
    try_list(rt, b"\x01\x01\x01", probes)?;
    try_room(rt, 5, probes)?;
    try_room(rt, 0, probes)?;
    try_list(rt, b"\x01\x01\x01\x02\x01\x03", probes)?;
    try_list(rt, b"\x00\x01\x01\x01\x01\x02", probes)?;
    try_list(rt, b"\x01\x01\x02\x02\x01\x02", probes)?;
    try_list(rt, b"\x01\x01\x02\x01\x01\x01\x01\x02", probes)?;
    try_list(rt, b"\x02\x01\x01\x01\x01\x02", probes)?;
    try_list(rt, b"\x01\x01\x02\x01\x02\x02", probes)?;
    try_ends(rt, Cell { x: 1, y: 1 }, Cell { x: 1, y: 1 }, probes)
}

// At last a good list, with scratch for its panel's cells alone.
fn try_all(rt: &impl Print, name: &[u8], probes: &[u8]) -> io::Result<()> {
    text(rt, name)?;
    bad_orders(rt, probes)?;
    bad_lists(rt, probes)?;
    try_room(rt, 6, probes)
}

fn with_refusals(rt: &impl Print) -> io::Result<()> {
    let many = [1u8; 130];
    try_all(rt, b"no probe, each of Judge's refusals:\n", b"")?;
    try_all(rt, b"a probe on the track:\n", b"\x01\x02")?;
    try_all(rt, b"a probe missed:\n", b"\x02\x02")?;
    try_all(rt, b"a probe off the panel:\n", b"\x01\x01\x04\x01")?;
    try_all(rt, b"half a probe:\n", b"\x01")?;
    try_all(rt, b"65 probes:\n", &many)
}

// ---- nearest cells

// A track on the panel of 3 by 3, around (2,2), and back.
fn try_around(rt: &impl Print, probes: &[u8]) -> io::Result<()> {
    let mut scratch = [0u8; 10];
    let a = Cell { x: 1, y: 1 };
    let b = Cell { x: 1, y: 3 };
    try_probes(
        rt,
        order_of(3, 3, a, b),
        b"\x01\x01\x02\x01\x03\x01\x03\x02\x03\x03\x02\x03\x01\x03",
        &mut scratch,
        probes,
    )?;
    try_probes(
        rt,
        order_of(3, 3, b, a),
        b"\x01\x03\x02\x03\x03\x03\x03\x02\x03\x01\x02\x01\x01\x01",
        &mut scratch,
        probes,
    )
}

// A track on the panel of 6 by 4.
fn try_hook(
    rt: &impl Print,
    entry: Cell,
    exit: Cell,
    list: &[u8],
    probes: &[u8],
) -> io::Result<()> {
    let mut scratch = [0u8; 24];
    try_probes(rt, order_of(6, 4, entry, exit), list, &mut scratch, probes)
}

// Ties: two or three cells beside the probe; several probes.
fn ties(rt: &impl Print) -> io::Result<()> {
    text(rt, b"nearest:\n")?;
    try_around(rt, b"\x02\x02")?;
    try_around(rt, b"\x01\x02")?;
    try_around(rt, b"\x02\x02\x01\x02\x02\x02\x03\x03\x01\x02")
}

// Squares from (1,1): 25 twice, forwards and backwards, 18 before 25, whose sides are longer together, and
// 16 before 18, whose longer side is shorter.
fn hooks(rt: &impl Print) -> io::Result<()> {
    let a = Cell { x: 6, y: 1 };
    let b = Cell { x: 5, y: 4 };
    let c = Cell { x: 4, y: 4 };
    let d = Cell { x: 5, y: 1 };
    let probes = b"\x01\x01\x06\x04\x01\x04\x03\x02\x01\x01";
    try_hook(
        rt,
        a,
        b,
        b"\x06\x01\x06\x02\x06\x03\x06\x04\x05\x04",
        probes,
    )?;
    try_hook(
        rt,
        b,
        a,
        b"\x05\x04\x06\x04\x06\x03\x06\x02\x06\x01",
        probes,
    )?;
    try_hook(
        rt,
        a,
        c,
        b"\x06\x01\x06\x02\x06\x03\x06\x04\x05\x04\x04\x04",
        probes,
    )?;
    try_hook(
        rt,
        c,
        a,
        b"\x04\x04\x05\x04\x06\x04\x06\x03\x06\x02\x06\x01",
        probes,
    )?;
    try_hook(
        rt,
        d,
        c,
        b"\x05\x01\x05\x02\x05\x03\x05\x04\x04\x04",
        probes,
    )?;
    try_hook(
        rt,
        c,
        d,
        b"\x04\x04\x05\x04\x05\x03\x05\x02\x05\x01",
        probes,
    )
}

// ---- one cell

// Both leads on one cell.
fn try_spot(
    rt: &impl Print,
    side: u32,
    x: u32,
    y: u32,
    list: &[u8],
    probes: &[u8],
) -> io::Result<()> {
    let mut scratch = [0u8; 12];
    let c = Cell { x, y };
    try_probes(rt, order_of(side, side, c, c), list, &mut scratch, probes)
}

// The smallest panel: its cell, its cell twice, off the panel, its cell 64 times.
fn smallest(rt: &impl Print) -> io::Result<()> {
    text(rt, b"one cell:\n")?;
    try_spot(rt, 1, 1, 1, b"\x01\x01", b"")?;
    try_spot(rt, 1, 1, 1, b"\x01\x01", b"\x01\x01")?;
    try_spot(rt, 1, 1, 1, b"\x01\x01", b"\x01\x01\x01\x01")?;
    try_spot(rt, 1, 1, 1, b"\x01\x01", b"\x02\x01")?;
    try_spot(rt, 1, 1, 1, b"\x01\x01", b"\x01\x01\x00\x01")?;
    let many = [1u8; 128];
    try_spot(rt, 1, 1, 1, b"\x01\x01", &many)
}

// 3 by 3: the track's cell, others, off the panel.
fn spots(rt: &impl Print) -> io::Result<()> {
    try_spot(rt, 3, 2, 1, b"\x02\x01", b"")?;
    try_spot(rt, 3, 2, 1, b"\x02\x01", b"\x02\x01")?;
    try_spot(rt, 3, 2, 1, b"\x02\x01", b"\x01\x01\x02\x01\x03\x03")?;
    try_spot(rt, 3, 2, 1, b"\x02\x01", b"\x04\x01")
}

// ---- 128 by 128

// The first cells of the snake, from (1,1) to the exit, with 16 bytes of scratch to spare.
fn try_snake(rt: &impl Print, list: &[u8], exit: Cell, probes: &[u8]) -> io::Result<()> {
    let mut scratch = [0u8; 16400];
    let o = order_of(128, 128, Cell { x: 1, y: 1 }, exit);
    try_probes(rt, o, list, &mut scratch, probes)
}

fn try_all_rows(rt: &impl Print, probes: &[u8]) -> io::Result<()> {
    let mut list = [0u8; 32768];
    snake(&mut list);
    try_snake(rt, &list, Cell { x: 1, y: 128 }, probes)
}

fn try_half_of_rows(rt: &impl Print, probes: &[u8]) -> io::Result<()> {
    let mut list = [0u8; 16384];
    snake(&mut list);
    try_snake(rt, &list, Cell { x: 1, y: 64 }, probes)
}

fn try_five_cells(rt: &impl Print, probes: &[u8]) -> io::Result<()> {
    let mut list = [0u8; 10];
    snake(&mut list);
    try_snake(rt, &list, Cell { x: 5, y: 1 }, probes)
}

// The first 64 cells of the snake.
fn first_cells(rt: &impl Print) -> io::Result<()> {
    let mut probes = [0u8; 128];
    snake(&mut probes);
    try_all_rows(rt, &probes)
}

// 64 cells to the end.
fn spread_cells(rt: &impl Print) -> io::Result<()> {
    let mut probes = [0u8; 128];
    spread(&mut probes);
    try_all_rows(rt, &probes)
}

// 64 cells below the upper half: (1,65), (3,66), and so on to (127,128).
fn lower_cells(rt: &impl Print) -> io::Result<()> {
    let mut probes = [0u8; 128];
    for i in 0..64 {
        let x = 2 * i + 1;
        let y = i + 65;
        put(&mut probes, i, Cell { x, y });
    }
    try_half_of_rows(rt, &probes)?;
    try_five_cells(rt, &probes)
}

// The track over all rows: none, the first cell, the last, the last row's start and the first, 64 in front, 64 to
// the end. The upper half and five cells: 64 missed. The upper half: one missed beside the first cell and
// beside the last.
fn large(rt: &impl Print) -> io::Result<()> {
    text(rt, b"128 by 128:\n")?;
    try_all_rows(rt, b"")?;
    try_all_rows(rt, b"\x01\x01")?;
    try_all_rows(rt, b"\x01\x80")?;
    try_all_rows(rt, b"\x80\x80\x01\x01")?;
    first_cells(rt)?;
    spread_cells(rt)?;
    lower_cells(rt)?;
    try_half_of_rows(rt, b"\x01\x01\x80\x80")?;
    try_half_of_rows(rt, b"\x01\x40\x80\x41")
}

// All rows again: off the panel; 65 probes, half of one less, 64 on one cell.
fn large_limits(rt: &impl Print) -> io::Result<()> {
    try_all_rows(rt, b"\x81\x01")?;
    try_all_rows(rt, b"\x01\x81")?;
    try_all_rows(rt, b"\x80\x80\x00\x80")?;
    try_all_rows(rt, b"\xff\xff")?;
    let many = [128u8; 130];
    try_all_rows(rt, &many)?;
    try_all_rows(rt, &many[..129])?;
    try_all_rows(rt, &many[..128])
}

fn main(rt: HostRuntime) -> io::Result<()> {
    found(&rt)?;
    repeated(&rt)?;
    missed(&rt)?;
    probe_bytes(&rt)?;
    off_alone(&rt)?;
    off_among(&rt)?;
    with_refusals(&rt)?;
    ties(&rt)?;
    hooks(&rt)?;
    smallest(&rt)?;
    spots(&rt)?;
    large(&rt)?;
    large_limits(&rt)?;
    made_up::run(&rt)
}
