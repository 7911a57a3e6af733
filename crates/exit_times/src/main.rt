// Times Exit beside a plain scan, which asks Bound of each cell in reading order until one has the wanted
// count, and compares what they give. A line gives the sides, the wanted count and the entries' colour
// (0 white, 1 black) and, behind the colon, for how many of the entries the scan found a cell, for how
// many none, and how many of Exit's answers were others. Standard error has, in the same order, the processor's time of a call of
// Exit and of a scan, in tenths of a nanosecond, the shortest of some turns, each with the turn's sum.
#![tactic(auto)]

use bound::{BoundValues, bound};
use exit::find_exit;
use grid::{Cell, Cells, Order, Panel, panel_of};
use std::io;
use std::time::CpuClock;
use trial::PITCH;
use trial::cells::{Tally, tallied};
use trial::numbers::below;
use trial::print::{row, tally};
use trial::times::{
    DOUBLED, TURNS, Turn, each, long_enough, micros, say, say_time, shorter, turn_from,
};

// How many entries a case has.
const ENTRIES: u32 = 64;

#[derive(Clone, Copy, Debug, PartialEq, Eq)]
enum Colour {
    White = 0,
    Black = 1,
}

// What is asked of every entry of a colour.
#[derive(Clone, Copy, Debug, PartialEq, Eq)]
struct Case {
    panel: Panel,
    wanted: Cells,
    colour: Colour,
}

// A case on a panel of the usual pitch.
fn case_of(width: u32, height: u32, wanted: u32, colour: Colour) -> Case {
    Case {
        panel: panel_of(width, height, PITCH),
        wanted: Cells(wanted),
        colour,
    }
}

// What stands for no cell where a cell is counted or added up.
fn or_nothing(found: Option<Cell>) -> Cell {
    found.unwrap_or(Cell { x: 0, y: 0 })
}

impl Case {
    // Entry i: somewhere on the panel, in the case's colour.
    fn entry(self, i: u32) -> Cell {
        let k = i % ENTRIES;
        let x = below(self.panel.width, 37 * k) % 128 + 1;
        let y = below(self.panel.height / 2, 29 * k) % 64 * 2 + 1;
        Cell {
            x,
            y: y + (x + y + self.colour as u32) % 2,
        }
    }

    // Whether Bound says that a track from the entry to another cell has the wanted count.
    fn is_exit(self, entry: Cell, t: Cell) -> bool {
        let o = Order {
            panel: self.panel,
            entry,
            exit: t,
        };
        entry != t && self.wanted.0 <= BoundValues::from(bound(o)).count.0
    }

    fn scan_row(self, entry: Cell, y: u32) -> Option<Cell> {
        (1..=self.panel.width)
            .map(|x| Cell { x, y })
            .find(|&t| self.is_exit(entry, t))
    }

    // The plain scan.
    fn scan(self, entry: Cell) -> Option<Cell> {
        (1..=self.panel.height).find_map(|y| self.scan_row(entry, y))
    }

    // Exit.
    fn ask(self, entry: Cell) -> Option<Cell> {
        find_exit(self.panel, entry, self.wanted).ok()
    }

    // The scan's answers beside Exit's.
    fn compared(self) -> Tally {
        let mut n = Tally {
            given: 0,
            none: 0,
            wrong: 0,
        };
        for i in 0..ENTRIES {
            let entry = self.entry(i);
            n = tallied(n, or_nothing(self.scan(entry)), or_nothing(self.ask(entry)));
        }
        n
    }

    // ---- times

    // So many calls, of every entry in turn.
    fn timed<F: Fn(Cell) -> Option<Cell>>(self, rt: &impl CpuClock, calls: u32, search: &F) -> Turn
        requires { F.IsAlwaysCallable search.now }
    {
        let start = micros(rt);
        let mut sum: u32 = 0;
        for i in 0..calls {
            let t = or_nothing(search(self.entry(i)));
            sum = sum.wrapping_add(t.x.wrapping_add(t.y));
        }
        turn_from(rt, start, sum)
    }

    // The calls of a turn that is long enough.
    fn calls<F: Fn(Cell) -> Option<Cell>>(self, rt: &impl CpuClock, search: &F) -> u32
        requires { F.IsAlwaysCallable search.now }
    {
        let mut calls = ENTRIES;
        for _k in 0..DOUBLED {
            if long_enough(self.timed(rt, calls, search)) {
                return calls;
            }
            calls = calls.wrapping_add(calls);
        }
        calls
    }

    // The shortest turn.
    fn shortest<F: Fn(Cell) -> Option<Cell>>(
        self,
        rt: &impl CpuClock,
        calls: u32,
        search: &F,
    ) -> Turn
        requires { F.IsAlwaysCallable search.now }
    {
        let mut best = self.timed(rt, calls, search);
        for _k in 1..TURNS {
            best = shorter(best, self.timed(rt, calls, search));
        }
        best
    }

    // In tenths of a nanosecond.
    fn say_times<F: Fn(Cell) -> Option<Cell>>(
        self,
        rt: &(impl CpuClock + Eprint),
        search: F,
    ) -> io::Result<()>
        requires { F.IsAlwaysCallable search }
    {
        let calls = self.calls(rt, &search);
        let t = self.shortest(rt, calls, &search);
        say_time(rt, each(t, calls), t.sum)?;
        say(rt, b" ")
    }

    fn tried(self, rt: &(impl CpuClock + Eprint + Print)) -> io::Result<()> {
        row(
            rt,
            &[
                self.panel.width,
                self.panel.height,
                self.wanted.0,
                self.colour as u32,
            ],
            b": ",
        )?;
        tally(rt, self.compared())?;
        self.say_times(rt, |entry| self.ask(entry))?;
        self.say_times(rt, |entry| self.scan(entry))?;
        say(rt, b"\n")
    }
}

// A count that no cell fits, all cells, and one fewer; then panels of three columns and of three rows,
// where the first fit may be far from the top.
fn main(rt: HostRuntime) -> io::Result<()> {
    let cases = [
        case_of(128, 128, 16385, Colour::White),
        case_of(128, 128, 16384, Colour::White),
        case_of(128, 128, 16383, Colour::White),
        case_of(127, 127, 16130, Colour::White),
        case_of(127, 127, 16129, Colour::Black),
        case_of(127, 127, 16129, Colour::White),
        case_of(127, 127, 16128, Colour::Black),
        case_of(127, 127, 16128, Colour::White),
        case_of(3, 128, 384, Colour::White),
        case_of(128, 3, 384, Colour::White),
    ];
    for c in cases {
        c.tried(&rt)?;
    }
    Ok(())
}
