// Runs each call of the bench beside the call for large panels, on equal input and equally filled buffers: for
// every order on panels up to 3 by 3, terminals off the panel included, in six ways; then for orders made
// up by a fixed sequence, on panels with sides around 1, 32 and 128. Where a side is from 33 to 128, and sides
// and pitch are otherwise good, the bench must say 19 and leave every byte; else both answers and all bytes
// must be equal. A line gives, for a call, how often both gave and both refused alike, how often the bench
// said 19 as it must, and how often it did otherwise.
#![tactic(auto)]

ghost use Rattle.std.specs.Prelude.{◌<◌, ◌^◌};

use grid::{Cell, Cells, Order, Panel, Refusal, area_of, panel_of};
use std::io;
use trial::PITCH;
use trial::numbers::{below, scrambled};
use trial::print::{named, text};

// More bytes than a call needs, for panels up to 3 by 3 and up to 129 by 129.
const SMALL: usize = 20;

const LARGE: usize = 33300;

// Nine panels with 5 ^ 4 pairs of terminals in each of the six ways; and the orders that are made up.
const SMALL_TRIALS: u32 = 33750;

const MADE_UP: u32 = 4096;

const SIDES: [u32; 8] = [1, 2, 3, 31, 32, 33, 128, 129];

const PITCHES: [u32; 8] = [1000, 4000, 10000, 2000, 4000, 6000, 999, 10001];

// The ways in which an order is tried: with room to spare; without; Draw a byte too short, so that Judge gets
// what the buffer was filled with; scratch a byte too short; a byte of the list changed; its last byte
// left out.
#[derive(Clone, Copy, Debug, PartialEq, Eq)]
enum Way {
    Spare,
    Exact,
    ShortBuffer,
    ShortScratch,
    ByteChanged,
    ByteLeftOut,
}

const WAYS: [Way; 6] = [
    Way::Spare,
    Way::Exact,
    Way::ShortBuffer,
    Way::ShortScratch,
    Way::ByteChanged,
    Way::ByteLeftOut,
];

#[derive(Clone, Copy)]
struct Tally {
    given: u32,
    refused: u32,
    off_bench: u32,
    different: u32,
}

#[derive(Clone, Copy)]
struct Totals {
    bound: Tally,
    draw: Tally,
    judge: Tally,
}

const NONE: Tally = Tally {
    given: 0,
    refused: 0,
    off_bench: 0,
    different: 0,
};

const NO_TRIALS: Totals = Totals {
    bound: NONE,
    draw: NONE,
    judge: NONE,
};

// How many bytes Draw is lent, how many of them Judge then gets for its list, which of these is changed
// between (one behind the list: none), and how many bytes of scratch Judge is lent.
#[derive(Clone, Copy)]
struct Sizes {
    buffer: usize,
    list: usize,
    changed: usize,
    scratch: usize,
}

// The same bytes in each buffer, with few zeros.
fn fill(buf: &mut [u8]) {
    for (i, byte) in buf.iter_mut().enumerate() {
        *byte = (i % 251) as u8;
    }
}

// ---- what is expected

// Whether the bench must say 19: neither 1 nor 18, and a side above 32.
fn off_bench(p: Panel) -> bool {
    let sides = (1..=128).contains(&p.width) && (1..=128).contains(&p.height);
    let pitch = (1000..=10000).contains(&p.pitch);
    sides && pitch && (32 < p.width || 32 < p.height)
}

// One trial more: `equal`, the bytes after both calls are equal; `kept`, those after the bench's call are
// as before.
fn tallied<T: PartialEq + Copy>(
    t: Tally,
    p: Panel,
    large: Result<T, Refusal>,
    bench: Result<T, Refusal>,
    equal: bool,
    kept: bool,
) -> Tally {
    let mut next = t;
    if off_bench(p) {
        if bench.err().map(|r| u32::from(r)) == Some(19) && kept {
            next.off_bench = t.off_bench.wrapping_add(1);
            return next;
        }
    } else if bench == large && equal {
        if large.is_ok() {
            next.given = t.given.wrapping_add(1);
        } else {
            next.refused = t.refused.wrapping_add(1);
        }
        return next;
    }
    next.different = t.different.wrapping_add(1);
    next
}

// ---- the calls

fn try_bound(o: Order, t: Tally) -> Tally {
    tallied(t, o.panel, bound::bound(o), bench::bound(o), true, true)
}

// Fills the buffer and lends its first bytes to the call.
fn lent<F: FnOnce(&mut [u8]) -> Result<Cells, Refusal>>(
    call: F,
    buf: &mut [u8],
    size: usize,
) -> Result<Cells, Refusal>
    requires { F.IsAlwaysCallable call }
{
    fill(buf);
    let k = size.min(buf.len());
    call(&mut buf[..k])
}

// Leaves what the large call left in the first buffer, and what the bench's did in the second.
fn try_both<
    F: FnOnce(&mut [u8]) -> Result<Cells, Refusal>,
    G: FnOnce(&mut [u8]) -> Result<Cells, Refusal>,
>(
    large: F,
    bench: G,
    p: Panel,
    size: usize,
    before: &[u8],
    one: &mut [u8],
    two: &mut [u8],
    t: Tally,
) -> Tally
    requires large { F.IsAlwaysCallable large }
    requires bench { G.IsAlwaysCallable bench }
{
    let a = lent(large, one, size);
    let b = lent(bench, two, size);
    let equal = &*one == &*two;
    let kept = &*two == before;
    tallied(t, p, a, b, equal, kept)
}

// ---- one order

fn sizes_of(way: Way, count: Cells, area: usize) -> Sizes {
    let bytes = 2 * (count.0 as usize);
    let exact = Sizes {
        buffer: bytes,
        list: bytes,
        changed: bytes,
        scratch: area,
    };
    match way {
        Way::Spare => Sizes {
            buffer: LARGE,
            scratch: LARGE,
            ..exact
        },
        Way::Exact => exact,
        Way::ShortBuffer => Sizes {
            buffer: bytes.saturating_sub(1),
            ..exact
        },
        Way::ShortScratch => Sizes {
            scratch: area.saturating_sub(1),
            ..exact
        },
        Way::ByteChanged => Sizes {
            changed: bytes / 2,
            ..exact
        },
        Way::ByteLeftOut => Sizes {
            list: bytes.saturating_sub(1),
            ..exact
        },
    }
}

// The list that Judge gets is the first bytes of the buffer that Draw was lent.
fn try_order<const N: usize>(o: Order, way: Way, t: Totals) -> Totals
    requires { N < 2 ^ 20 }
{
    let mut before = [0u8; N];
    let mut track = [0u8; N];
    let mut one = [0u8; N];
    let mut two = [0u8; N];
    let count = bound::bound(o).map_or(Cells(0), |found| found.count);
    let sizes = sizes_of(way, count, area_of(o.panel));
    fill(&mut before);
    let bound = try_bound(o, t.bound);
    let draw = try_both(
        |buf| draw::draw(o, buf),
        |buf| bench::draw(o, buf),
        o.panel,
        sizes.buffer,
        &before,
        &mut track,
        &mut one,
        t.draw,
    );
    if let Some(byte) = track.get_mut(sizes.changed) {
        *byte ^= 1;
    }
    let list = &track[..sizes.list.min(N)];
    let judge = try_both(
        |scratch| judge::judge(o, list, scratch),
        |scratch| bench::judge(o, list, scratch),
        o.panel,
        sizes.scratch,
        &before,
        &mut one,
        &mut two,
        t.judge,
    );
    Totals { bound, draw, judge }
}

// ---- the orders

// Order `code` of those on panels up to 3 by 3: each coordinate of a terminal is from 0 to 4.
fn small_order(code: u32) -> Order {
    Order {
        panel: panel_of(code % 3 + 1, code / 3 % 3 + 1, PITCH),
        entry: Cell {
            x: code / 9 % 5,
            y: code / 45 % 5,
        },
        exit: Cell {
            x: code / 225 % 5,
            y: code / 1125 % 5,
        },
    }
}

// A made-up number below n: number k, of eight, of order `code`.
fn pick_of_eight(code: u32, k: u32, n: u32) -> u32 {
    below(n, scrambled(scrambled(code % 65536 * 8 + k % 8 + 1)))
}

// A made-up cell, on the panel or next to it, on the right or above.
fn pick_cell(p: Panel, code: u32, k: u32) -> Cell {
    Cell {
        x: pick_of_eight(code, k, p.width.wrapping_add(1)).wrapping_add(1),
        y: pick_of_eight(code, k.wrapping_add(1), p.height.wrapping_add(1)),
    }
}

fn made_up_order(code: u32) -> Order {
    let width = SIDES[(code % 8) as usize];
    let height = SIDES[(code / 8 % 8) as usize];
    let pitch = PITCHES[(pick_of_eight(code, 4, 8) % 8) as usize];
    let panel = panel_of(width, height, pitch);
    let entry = pick_cell(panel, code, 0);
    if pick_of_eight(code, 5, 8) == 0 {
        return Order {
            panel,
            entry,
            exit: entry,
        };
    }
    Order {
        panel,
        entry,
        exit: pick_cell(panel, code, 2),
    }
}

// Order `code` / 6, in each of the six ways in turn.
fn try_small(t: Totals, code: u32) -> Totals {
    try_order::<SMALL>(small_order(code / 6), WAYS[(code % 6) as usize], t)
}

// A made-up order in a made-up way.
fn try_made_up(t: Totals, code: u32) -> Totals {
    let way = WAYS[(pick_of_eight(code, 6, 6) % 6) as usize];
    try_order::<LARGE>(made_up_order(code), way, t)
}

// ---- what is printed

fn print_tally(rt: &impl Print, name: &[u8], t: Tally) -> io::Result<()> {
    text(rt, name)?;
    named(rt, b": given ", t.given)?;
    named(rt, b", refused ", t.refused)?;
    named(rt, b", by 19 ", t.off_bench)?;
    named(rt, b", different ", t.different)?;
    text(rt, b"\n")
}

fn print_totals(rt: &impl Print, name: &[u8], trials: u32, t: Totals) -> io::Result<()> {
    text(rt, name)?;
    named(rt, b", trials ", trials)?;
    text(rt, b"\n")?;
    print_tally(rt, b"bound", t.bound)?;
    print_tally(rt, b"draw", t.draw)?;
    print_tally(rt, b"judge", t.judge)
}

fn main(rt: HostRuntime) -> io::Result<()> {
    print_totals(
        &rt,
        b"every order up to 3 by 3",
        SMALL_TRIALS,
        (0..SMALL_TRIALS).fold(NO_TRIALS, try_small),
    )?;
    print_totals(
        &rt,
        b"made up, up to 129 by 129",
        MADE_UP,
        (0..MADE_UP).fold(NO_TRIALS, try_made_up),
    )
}
