// Orders, lists and probes made up by a fixed sequence, and Probe on them beside the peer.
use crate::peer::{expected_sheet, numbers_of};
use grid::{Cell, Order, Panel, Refusal, area_of, panel_of};
use probe::ProbeSheet;
use std::io;
use trial::PITCH;
use trial::cells::{cell_at, cells_in, put};
use trial::numbers::pick;
use trial::plain::{Sheet, different};
use trial::print::{named, text};

// How many orders are made up.
const ORDERS: u32 = 8192;

const SIDES: [u32; 16] = [1, 1, 2, 2, 3, 3, 4, 4, 5, 5, 6, 7, 8, 9, 9, 128];

// More bytes than a track of 16,384 cells, scratch and 66 probes have.
const LIST: usize = 32800;

const SCRATCH: usize = 16400;

const PROBES: usize = 140;

// How often a sheet was given, without probes, with every probe on the track, and with some missed; how often
// each number refused; and how often sheet or scratch differed from the peer's.
#[derive(Clone, Copy)]
struct Tally {
    empty: u32,
    found: u32,
    missed: u32,
    refused: [u32; 32],
    different: u32,
}

// What Probe is called with: the order, and how many bytes of each buffer are lent.
#[derive(Clone, Copy)]
struct Job {
    order: Order,
    list: usize,
    scratch: usize,
    probes: usize,
}

// ---- the sequence

fn pick_cell(p: Panel, code: u32, k: u32) -> Cell {
    Cell {
        x: pick(code, k, p.width).wrapping_add(1),
        y: pick(code, k.wrapping_add(1), p.height).wrapping_add(1),
    }
}

// ---- the order and its list

fn made_up_order(code: u32) -> Order {
    let width = SIDES[(pick(code, 0, 16) % 16) as usize];
    let height = SIDES[(pick(code, 1, 16) % 16) as usize];
    let panel = panel_of(width, height, PITCH);
    let entry = pick_cell(panel, code, 2);
    let exit = pick_cell(panel, code, 4);
    Order { panel, entry, exit }
}

// How many of a drawn track's cells the list has: every second time all, else some.
fn front_of(code: u32, cells: u32) -> u32 {
    if pick(code, 6, 2) == 0 {
        return cells;
    }
    pick(code, 7, cells).wrapping_add(1)
}

// Draws a track for the order. Gives how many of its cells are the list.
fn draw_list(o: Order, code: u32, list: &mut [u8]) -> u32 {
    let cells = draw::draw(o, list).map_or(0, |drawn| drawn.0);
    front_of(code, cells) % 65536
}

// Probe's input for the order: the list, whose last cell is the exit, and up to three bytes of scratch to spare.
fn good_job(o: Order, code: u32, list: &[u8], cells: u32) -> Job {
    let exit = cell_at(list, cells.saturating_sub(1));
    Job {
        order: Order { exit, ..o },
        list: 2 * (cells as usize),
        scratch: area_of(o.panel) % 32768 + (pick(code, 8, 4) as usize),
        probes: probe_bytes(code),
    }
}

// ---- the probes

// Up to 66 probes, every fourth time up to three; now and then a byte is missing.
fn probe_bytes(code: u32) -> usize {
    let most = if pick(code, 9, 4) == 0 { 4 } else { 67 };
    let bytes = 2 * (pick(code, 10, most) as usize);
    if pick(code, 11, 16) == 0 {
        return bytes.saturating_sub(1);
    }
    bytes
}

// Probe i: a cell of the list, one of its first quarter, mostly a cell of the list, or any of the panel.
fn made_up_probe(o: Order, list: &[u8], cells: u32, code: u32, i: u32) -> Cell {
    let k = i % 80 * 3 + 16;
    match pick(code, 12, 4) {
        0 => cell_at(list, pick(code, k, cells)),
        1 => cell_at(list, pick(code, k, cells / 4 + 1)),
        2 => {
            if pick(code, k, 8) == 0 {
                pick_cell(o.panel, code, k + 1)
            } else {
                cell_at(list, pick(code, k + 1, cells))
            }
        }
        _ => pick_cell(o.panel, code, k + 1),
    }
}

// A cell off the panel.
fn off_cell(p: Panel, code: u32) -> Cell {
    match pick(code, 13, 4) {
        0 => Cell { x: 0, y: 1 },
        1 => Cell {
            x: p.width.wrapping_add(1),
            y: 1,
        },
        2 => Cell {
            x: 1,
            y: p.height.wrapping_add(1),
        },
        _ => Cell { x: 255, y: 0 },
    }
}

// Every eighth time one of the probes is off the panel.
fn make_up_probes(o: Order, list: &[u8], cells: u32, code: u32, probes: &mut [u8]) {
    for i in 0..70 {
        put(probes, i, made_up_probe(o, list, cells, code, i));
    }
    if pick(code, 14, 8) == 0 {
        put(
            probes,
            pick(code, 15, cells_in(probe_bytes(code))),
            off_cell(o.panel, code),
        );
    }
}

// ---- faults, so that Judge refuses: every third time about

fn fault_of(code: u32) -> u32 {
    pick(code, 255, 30)
}

// 1, 18, 2, 3, and another exit.
fn spoiled_order(o: Order, fault: u32) -> Order {
    let panel = o.panel;
    match fault {
        0 => Order {
            panel: panel_of(129, panel.height, PITCH),
            ..o
        },
        1 => Order {
            panel: panel_of(panel.width, panel.height, 999),
            ..o
        },
        2 => Order {
            entry: Cell { x: 0, y: 1 },
            ..o
        },
        3 => Order {
            exit: Cell {
                x: 1,
                y: panel.height.wrapping_add(1),
            },
            ..o
        },
        4 => Order { exit: o.entry, ..o },
        _ => o,
    }
}

// 6, an empty list and one cut short; 5; a cell more.
fn spoiled_job(j: Job, fault: u32) -> Job {
    let order = spoiled_order(j.order, fault);
    let mut next = j;
    next.order = order;
    match fault {
        5 => next.list = 0,
        6 => next.list = j.list.saturating_sub(1),
        7 => next.scratch = area_of(j.order.panel).saturating_sub(1),
        8 => next.list = j.list % 65536 + 2,
        _ => {}
    }
    next
}

// The cell more, which stands twice; a cell off the panel; a cell a row below where it was.
fn spoil_list(list: &mut [u8], cells: u32, code: u32, fault: u32) {
    let at = pick(code, 254, cells);
    let c = cell_at(list, at);
    match fault {
        8 => put(list, cells, cell_at(list, cells.saturating_sub(2))),
        9 => put(list, at, Cell { x: 200, y: c.y }),
        10 | 11 => put(
            list,
            at,
            Cell {
                x: c.x,
                y: c.y.wrapping_add(1),
            },
        ),
        _ => {}
    }
}

// ---- one order

// Whether some place has a nearest cell, which only a missed probe's has.
fn some_missed(s: Sheet) -> bool {
    s.nearest.iter().any(|c| c.x != 0)
}

// One sheet more, which the peer expected.
fn tallied_given(t: Tally, s: Sheet, bytes: usize) -> Tally {
    let mut next = t;
    if bytes == 0 {
        next.empty = t.empty.wrapping_add(1);
    } else if some_missed(s) {
        next.missed = t.missed.wrapping_add(1);
    } else {
        next.found = t.found.wrapping_add(1);
    }
    next
}

fn tallied(t: Tally, s: Sheet, bytes: usize, alike: bool) -> Tally {
    let mut next = t;
    if !alike {
        next.different = t.different.wrapping_add(1);
        return next;
    }
    if s.refusal == 0 {
        return tallied_given(t, s, bytes);
    }
    let at = (s.refusal % 32) as usize;
    next.refused[at] = t.refused[at].wrapping_add(1);
    next
}

// Whether Probe answered as the peer expects: with its sheet, or by its number, with which no sheet is given.
fn as_expected(answer: Result<ProbeSheet, Refusal>, expected: Sheet) -> bool {
    match answer {
        Ok(sheet) => different(expected, numbers_of(sheet)) == 0,
        Err(r) => u32::from(r) == expected.refusal,
    }
}

// Probe and the peer, each with scratch of its own.
fn compared(
    o: Order,
    list: &[u8],
    one: &mut [u8],
    two: &mut [u8],
    probes: &[u8],
    t: Tally,
) -> Tally {
    one.fill(255);
    two.fill(255);
    let answer = probe::probe(o, list, one, probes);
    let expected = expected_sheet(o, list, two, probes);
    let alike = as_expected(answer, expected) && &*one == &*two;
    tallied(t, expected, probes.len(), alike)
}

fn lent(j: Job, list: &[u8], one: &mut [u8], two: &mut [u8], probes: &[u8], t: Tally) -> Tally {
    let cells = j.list.min(list.len());
    let first = j.scratch.min(one.len());
    let second = j.scratch.min(two.len());
    let bytes = j.probes.min(probes.len());
    compared(
        j.order,
        &list[..cells],
        &mut one[..first],
        &mut two[..second],
        &probes[..bytes],
        t,
    )
}

fn try_made_up(code: u32, t: Tally) -> Tally {
    let mut list = [0u8; LIST];
    let mut one = [0u8; SCRATCH];
    let mut two = [0u8; SCRATCH];
    let mut probes = [0u8; PROBES];
    let o = made_up_order(code);
    let cells = draw_list(o, code, &mut list);
    make_up_probes(o, &list, cells, code, &mut probes);
    let job = spoiled_job(good_job(o, code, &list, cells), fault_of(code));
    spoil_list(&mut list, cells, code, fault_of(code));
    lent(job, &list, &mut one, &mut two, &probes, t)
}

fn all_made_up() -> Tally {
    let mut t = Tally {
        empty: 0,
        found: 0,
        missed: 0,
        refused: [0; 32],
        different: 0,
    };
    for code in 0..ORDERS {
        t = try_made_up(code, t);
    }
    t
}

// ---- what is printed

// Each number that refused, and how often.
fn print_refused(rt: &impl Print, refused: [u32; 32]) -> io::Result<()> {
    for i in 0..32 {
        if refused[i] != 0 {
            named(rt, b"refused by ", i as u32)?;
            named(rt, b": ", refused[i])?;
            text(rt, b"\n")?;
        }
    }
    Ok(())
}

pub fn run(rt: &impl Print) -> io::Result<()> {
    let t = all_made_up();
    named(rt, b"made up, orders ", ORDERS)?;
    named(rt, b"\ngiven: without probes ", t.empty)?;
    named(rt, b", all found ", t.found)?;
    named(rt, b", some missed ", t.missed)?;
    text(rt, b"\n")?;
    let refused = t.refused;
    print_refused(rt, refused)?;
    named(rt, b"different ", t.different)?;
    text(rt, b"\n")
}
