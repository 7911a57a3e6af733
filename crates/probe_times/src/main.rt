// Times Probe on the panel of 128 by 128 beside Judge alone and a plain way, which judges the list and then
// searches each probe in it by itself, and compares what the two give. The first four cases have the track
// over all rows, the others the one without the last row. A line gives the cells read, how many
// probes are found, and how many places of the sheets differ (refusal and cells read counted as one). Standard
// error has, in the same order, the processor's time of a call of Judge, of Probe and of the plain way, in
// nanoseconds, the shortest of some turns, each with a sum over what it gave.
#![tactic(auto)]

use grid::{Cell, Cells, Order, Refusal, panel_of};
use probe::{ProbeSheet, probe};
use std::io;
use std::time::CpuClock;
use trial::PITCH;
use trial::cells::{put, repeat, snake, spread};
use trial::plain::{Sheet, blank, different, sheet_of};
use trial::print::{named, text};
use trial::times::{
    DOUBLED, TURNS, Turn, each, long_enough, micros, say, say_time, shorter, turn_from,
};

// ---- the ways

// A list on the largest panel, and the cells that are probed.
#[derive(Clone, Copy)]
struct Case<'a> {
    order: Order,
    list: &'a [u8],
    probes: &'a [u8],
}

// The numbers that Probe answers by.
fn numbers_of(answer: Result<ProbeSheet, Refusal>) -> Sheet {
    match answer {
        Err(r) => blank(u32::from(r)),
        Ok(sheet) => {
            let positions = sheet.positions;
            let nearest = sheet.nearest;
            Sheet {
                refusal: 0,
                positions,
                nearest,
                read: sheet.read.0,
            }
        }
    }
}

// A sum over the numbers of a sheet.
fn sum_of(s: Sheet) -> u32 {
    let mut sum = s.read;
    for i in 0..64 {
        let c = s.nearest[i];
        sum = sum
            .wrapping_add(s.positions[i])
            .wrapping_add(c.x)
            .wrapping_add(c.y);
    }
    sum
}

impl<'a> Case<'a> {
    fn judged(self, scratch: &mut [u8]) -> Result<Cells, Refusal> {
        judge::judge(self.order, self.list, scratch)
    }

    fn probed(self, scratch: &mut [u8]) -> Sheet {
        numbers_of(probe(self.order, self.list, scratch, self.probes))
    }

    // Judge, and then a search of its own for each probe. It takes good probes only.
    fn plain(self, scratch: &mut [u8]) -> Sheet {
        match self.judged(scratch) {
            Err(r) => blank(u32::from(r)),
            Ok(_) => sheet_of(self.list, self.probes),
        }
    }
}

// ---- times

// So many calls of a way.
fn timed<F: Fn(&mut [u8]) -> u32>(
    rt: &impl CpuClock,
    way: &F,
    scratch: &mut [u8],
    calls: u32,
) -> Turn
    requires { F.IsAlwaysCallable way.now }
{
    let start = micros(rt);
    let mut sum: u32 = 0;
    for _i in 0..calls {
        sum = sum.wrapping_add(way(scratch));
    }
    turn_from(rt, start, sum)
}

// The calls of a turn that is long enough.
fn calls_of<F: Fn(&mut [u8]) -> u32>(rt: &impl CpuClock, way: &F, scratch: &mut [u8]) -> u32
    requires { F.IsAlwaysCallable way.now }
{
    let mut calls: u32 = 1;
    for _k in 0..DOUBLED {
        if long_enough(timed(rt, way, scratch, calls)) {
            return calls;
        }
        calls = calls.wrapping_add(calls);
    }
    calls
}

// The shortest turn.
fn shortest<F: Fn(&mut [u8]) -> u32>(
    rt: &impl CpuClock,
    way: &F,
    scratch: &mut [u8],
    calls: u32,
) -> Turn
    requires { F.IsAlwaysCallable way.now }
{
    let mut best = timed(rt, way, scratch, calls);
    for _k in 1..TURNS {
        best = shorter(best, timed(rt, way, scratch, calls));
    }
    best
}

// In nanoseconds.
fn say_way<F: Fn(&mut [u8]) -> u32>(
    rt: &(impl CpuClock + Eprint),
    name: &[u8],
    way: F,
) -> io::Result<()>
    requires { F.IsAlwaysCallable way }
{
    let mut scratch = [0u8; 16384];
    let calls = calls_of(rt, &way, &mut scratch);
    let t = shortest(rt, &way, &mut scratch, calls);
    say(rt, name)?;
    say_time(rt, each(t, calls) / 10, t.sum)
}

fn say_times(rt: &(impl CpuClock + Eprint), name: &[u8], c: Case<'_>) -> io::Result<()> {
    say(rt, name)?;
    say_way(rt, b": judge ", |scratch| {
        c.judged(scratch).map_or(0, |cells| cells.0)
    })?;
    say_way(rt, b", probe ", |scratch| sum_of(c.probed(scratch)))?;
    say_way(rt, b", plain ", |scratch| sum_of(c.plain(scratch)))?;
    say(rt, b"\n")
}

// ---- what both give

// How many places have a position.
fn found_in(s: Sheet) -> u32 {
    let mut n: u32 = 0;
    for i in 0..64 {
        if s.positions[i] != 0 {
            n = n.wrapping_add(1);
        }
    }
    n
}

fn compare(rt: &impl Print, name: &[u8], c: Case<'_>) -> io::Result<()> {
    let mut scratch = [0u8; 16384];
    let s = c.probed(&mut scratch);
    let expected = c.plain(&mut scratch);
    text(rt, name)?;
    named(rt, b": read ", s.read)?;
    named(rt, b", found ", found_in(s))?;
    named(rt, b", different ", different(expected, s))?;
    text(rt, b"\n")
}

// ---- cases

fn try_case(
    rt: &(impl CpuClock + Eprint + Print),
    name: &[u8],
    exit: Cell,
    list: &[u8],
    probes: &[u8],
) -> io::Result<()> {
    let c = Case {
        order: Order {
            panel: panel_of(128, 128, PITCH),
            entry: Cell { x: 1, y: 1 },
            exit,
        },
        list,
        probes,
    };
    compare(rt, name, c)?;
    say_times(rt, name, c)
}

// All rows, of which the last ends at (1, 128).
fn try_all_rows(
    rt: &(impl CpuClock + Eprint + Print),
    name: &[u8],
    probes: &[u8],
) -> io::Result<()> {
    let mut list = [0u8; 32768];
    snake(&mut list);
    try_case(rt, name, Cell { x: 1, y: 128 }, &list, probes)
}

// All rows but the last.
fn try_missed(rt: &(impl CpuClock + Eprint + Print), name: &[u8], probes: &[u8]) -> io::Result<()> {
    let mut list = [0u8; 32512];
    snake(&mut list);
    try_case(rt, name, Cell { x: 128, y: 127 }, &list, probes)
}

// 64 cells to the end.
fn spread_cells(rt: &(impl CpuClock + Eprint + Print)) -> io::Result<()> {
    let mut probes = [0u8; 128];
    spread(&mut probes);
    try_all_rows(rt, b"64 to the end", &probes)
}

fn last_cell(rt: &(impl CpuClock + Eprint + Print)) -> io::Result<()> {
    let mut probes = [0u8; 128];
    repeat(&mut probes, Cell { x: 1, y: 128 });
    try_all_rows(rt, b"the end 64 times", &probes)
}

// Every second cell of the last row.
fn last_row(rt: &(impl CpuClock + Eprint + Print)) -> io::Result<()> {
    let mut probes = [0u8; 128];
    for i in 0..64 {
        let x = 2 * i + 1;
        put(&mut probes, i, Cell { x, y: 128 });
    }
    try_missed(rt, b"64 missed", &probes)
}

fn main(rt: HostRuntime) -> io::Result<()> {
    try_all_rows(&rt, b"no probe", b"")?;
    try_all_rows(&rt, b"the end", b"\x01\x80")?;
    spread_cells(&rt)?;
    last_cell(&rt)?;
    try_missed(&rt, b"one missed", b"\x40\x80")?;
    last_row(&rt)
}
