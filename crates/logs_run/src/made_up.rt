// Panels and logs made up by a fixed sequence, and Compare on them beside the peer.
use crate::call::{Job, called};
use crate::log::{cell_of, entries, front, put_entry};
use crate::peer::{check_sizes, expected};
use grid::{Cell, Panel, area_of, panel_of};
use logs::LogCounts;
use std::io;
use trial::PITCH;
use trial::cells::filled;
use trial::numbers::{below, made_up, pick};
use trial::print::{named, row, text};

// How many pairs of logs are made up.
const PAIRS: u32 = 8192;

// The first tick of both logs, and how much more is a step.
const FIRST: [u32; 8] = [0, 0, 200, 65500, 0, 16777100, 0, 4294967180];

const STEP: [u32; 8] = [1, 1, 1, 1, 255, 257, 33554431, 1];

// More bytes than a log of 63 entries, with some to spare, and the scratch of 36 cells have.
const LOG: usize = 384;

const SCRATCH: usize = 44;

// How often each number up to 21 was the refusal, 0 for none; how many cells were counted as in both logs, and
// as seen earlier; and how often the totals, or the answer or a byte of scratch, were not what they must be.
#[derive(Clone, Copy, Debug, PartialEq, Eq)]
struct Tally {
    refusals: [u32; 22],
    both: u32,
    earlier: u32,
    wrong_totals: u32,
    different: u32,
}

// ---- logs

// How many entries a log has, and the tick of the last.
#[derive(Clone, Copy, Debug, PartialEq, Eq)]
struct Made {
    entries: u32,
    tick: u32,
}

// A number from 1 to the side; for a fault from 0 to one more.
fn drawn(side: u32, a: u32, fault: bool) -> u32 {
    if fault {
        return below(side.wrapping_add(2), a);
    }
    below(side, a).wrapping_add(1)
}

// A tick that is none, one or two steps later; for a fault one earlier.
fn later(tick: u32, step: u32, a: u32, fault: bool) -> u32 {
    if fault {
        return tick.wrapping_sub(1);
    }
    tick.wrapping_add(step.wrapping_mul(a % 3))
}

// Whether one of the log's first n entries has the cell.
fn has_among(log: &[u8], n: u32, c: Cell) -> bool {
    entries(log)
        .iter()
        .take(n as usize)
        .any(|&entry| cell_of(entry) == c)
}

// One entry more, unless its cell stands already. Now and then there is a fault: its cell may be off the
// panel, it is put though its cell stands already, or its tick falls.
fn make_up_entry(p: Panel, step: u32, a: u32, log: &mut [u8], m: Made) -> Made {
    let fault = a / 65536 % 256;
    let c = Cell {
        x: drawn(p.width, a, fault == 0),
        y: drawn(p.height, a / 64, fault == 0),
    };
    if has_among(log, m.entries, c) && fault != 1 {
        return m;
    }
    let tick = later(m.tick, step, a / 4096, fault == 2);
    put_entry(log, m.entries, c, tick);
    Made {
        entries: m.entries.wrapping_add(1),
        tick,
    }
}

// Draws up to 63 entries, by the numbers behind k. Gives how many are put.
fn make_up_log(p: Panel, code: u32, k: u32, log: &mut [u8]) -> u32 {
    let which = (pick(code, 0, 8) % 8) as usize;
    let step = STEP[which];
    let mut m = Made {
        entries: 0,
        tick: FIRST[which],
    };
    for i in 0..pick(code, k, 64) {
        let a = made_up(code, k.wrapping_add(i).wrapping_add(1));
        m = make_up_entry(p, step, a, log, m);
    }
    m.entries
}

// Every fourth time there is a fault: 1, 18, 6 of either log, 5. The buffers of the logs have more bytes.
fn spoiled<'a>(j: Job<'a>, burned: &'a [u8], seen: &'a [u8], fault: u32) -> Job<'a> {
    let p = j.panel;
    let mut next = j;
    match fault {
        0 => next.panel = panel_of(0, p.height, p.pitch),
        1 => next.panel = panel_of(p.width, 129, p.pitch),
        2 => next.panel = panel_of(p.width, p.height, 999),
        3 => next.panel = panel_of(p.width, p.height, 10001),
        4 => next.burned = front(burned, j.burned.len().saturating_sub(1)),
        5 => next.burned = front(burned, j.burned.len() + 1),
        6 => next.seen = front(seen, j.seen.len().saturating_sub(1)),
        7 => next.seen = front(seen, j.seen.len() + 3),
        8 => next.room = area_of(p).saturating_sub(1),
        9 => next.room = 0,
        _ => {}
    }
    next
}

// ---- one pair

// Whether the first bytes are 0 and the others as before.
fn zeros_before(scratch: &[u8], zeros: usize, before: u8) -> bool {
    let k = zeros.min(scratch.len());
    filled(&scratch[..k], 0, 0) && filled(scratch, k, before)
}

// How many bytes of scratch must be 0 after the call.
fn zeros_after(j: Job) -> usize {
    match check_sizes(j) {
        Ok(()) => area_of(j.panel),
        Err(_) => 0,
    }
}

// The totals of the numbers, beside the lengths of the logs.
fn right_totals(j: Job, k: LogCounts) -> bool {
    let burned = k.both.0.wrapping_add(k.only_burned.0);
    let seen = k.both.0.wrapping_add(k.only_seen.0);
    burned as usize == entries(j.burned).len()
        && seen as usize == entries(j.seen).len()
        && k.earlier.0 <= k.both.0
}

fn one_more(count: &mut u32) {
    *count = count.wrapping_add(1);
}

impl Tally {
    // An answer more, and whether it and the scratch are as they must be.
    fn count(&mut self, j: Job, answer: Result<LogCounts, u32>, alike: bool) {
        if let Ok(k) = answer {
            self.both = self.both.wrapping_add(k.both.0);
            self.earlier = self.earlier.wrapping_add(k.earlier.0);
            if !right_totals(j, k) {
                one_more(&mut self.wrong_totals);
                return;
            }
        }
        if !alike {
            one_more(&mut self.different);
            return;
        }
        let refusal = answer.err().unwrap_or(0) as usize;
        if let Some(count) = self.refusals.get_mut(refusal) {
            one_more(count);
        }
    }
}

fn compare_answers(j: Job, before: u8, tally: &mut Tally) {
    let mut scratch = [before; SCRATCH];
    let answer = called(j, &mut scratch);
    let alike = answer == expected(j) && zeros_before(&scratch, zeros_after(j), before);
    tally.count(j, answer, alike);
}

// Up to three bytes of scratch to spare.
fn try_made_up(code: u32, tally: &mut Tally) {
    let mut burned = [0u8; LOG];
    let mut seen = [0u8; LOG];
    let panel = panel_of(
        pick(code, 3, 6).wrapping_add(1),
        pick(code, 4, 6).wrapping_add(1),
        PITCH,
    );
    let lasers = make_up_log(panel, code, 16, &mut burned);
    let cameras = make_up_log(panel, code, 96, &mut seen);
    let good = Job {
        panel,
        burned: front(&burned, (lasers % 64 * 6) as usize),
        seen: front(&seen, (cameras % 64 * 6) as usize),
        room: area_of(panel) % 64 + (pick(code, 1, 4) as usize),
    };
    let job = spoiled(good, &burned, &seen, pick(code, 2, 40));
    compare_answers(job, (pick(code, 5, 256) % 256) as u8, tally);
}

pub fn run(rt: &impl Print) -> io::Result<()> {
    let mut tally = Tally {
        refusals: [0; 22],
        both: 0,
        earlier: 0,
        wrong_totals: 0,
        different: 0,
    };
    for code in 0..PAIRS {
        try_made_up(code, &mut tally);
    }
    named(rt, b"made up, pairs of logs ", PAIRS)?;
    text(
        rt,
        b"\nrefused by 0 (none) to 21; in both, seen earlier, wrong totals, different:\n",
    )?;
    row(rt, &tally.refusals, b" ")?;
    let others = [
        tally.both,
        tally.earlier,
        tally.wrong_totals,
        tally.different,
    ];
    row(rt, &others, b"\n")
}
