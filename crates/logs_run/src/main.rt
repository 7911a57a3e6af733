// Runs Compare on small logs that agree or not, on ticks around each byte, with each refusal at its borders and
// with two faults, and on every cell of the largest panel. Each line gives the refusal (0 where the numbers are
// given), the cells in both logs, only burned, only seen and seen earlier, and how many bytes of the buffer for
// scratch, filled with 255 before, are 0 and 255 after; another line follows where the answer is not a plain
// peer's. Then, for panels and logs made up by a fixed sequence, how often each number refused and how often
// the numbers were given, as by the peer, with the same bytes in scratch, and how often it differed. Standard
// error has the processor's time, in microseconds, of each call with 1,024 entries or more of the camera's,
// and of the peer's with as many, each with how many cells were seen earlier.
#![tactic(auto)]

mod call;
mod log;
mod made_up;
mod peer;

use crate::call::{Job, called, numbers_of};
use crate::log::{Rows, front, put_entry, put_rows};
use crate::peer::expected;
use grid::{Cell, Panel, area_of, panel_of};
use logs::LogCounts;
use std::io;
use std::time::CpuClock;
use trial::PITCH;
use trial::cells::count;
use trial::print::{row, text};
use trial::times::{micros, say, say_time, turn_from};

// The largest number of 32 bits.
const MAX: u32 = 4294967295;

// Logs with more entries are not compared with the peer; with fewer they are not timed.
const ENTRIES: usize = 1024;

// ---- a line

// The time of what began at `start`.
fn say_turn(
    rt: &(impl CpuClock + Eprint),
    name: &[u8],
    j: Job,
    start: u64,
    answer: Result<LogCounts, u32>,
) -> io::Result<()> {
    let [_, _, _, _, earlier] = numbers_of(answer);
    let turn = turn_from(rt, start, earlier);
    if j.seen.len() < 6 * ENTRIES {
        return Ok(());
    }
    say(rt, name)?;
    say_time(rt, turn.micros, turn.sum)?;
    say(rt, b"\n")
}

fn try_peer(
    rt: &(impl CpuClock + Eprint + Print),
    j: Job,
    answer: Result<LogCounts, u32>,
) -> io::Result<()> {
    let start = micros(rt);
    let e = expected(j);
    say_turn(rt, b"peer ", j, start, e)?;
    if answer != e {
        text(rt, b"the peer differs\n")?;
    }
    Ok(())
}

fn try_job(rt: &(impl CpuClock + Eprint + Print), j: Job, scratch: &mut [u8]) -> io::Result<()> {
    scratch.fill(255);
    let start = micros(rt);
    let answer = called(j, scratch);
    say_turn(rt, b"compare ", j, start, answer)?;
    let zeros = count(scratch, 0);
    let kept = count(scratch, 255);
    row(rt, &numbers_of(answer), b" ")?;
    row(rt, &[zeros, kept], b"\n")?;
    if j.burned.len() <= 6 * ENTRIES && j.seen.len() <= 6 * ENTRIES {
        try_peer(rt, j, answer)?;
    }
    Ok(())
}

// ---- logs as text

// What a character stands for: a digit for its number, any other one for itself.
fn value_of(character: u8) -> u8 {
    if character.is_ascii_digit() {
        character - b'0'
    } else {
        character
    }
}

// A pair of logs, with up to twelve entries, the camera's behind a stroke. An entry has six characters: x, y
// and the four bytes of the tick. So much scratch is lent, of 130 bytes.
fn try_line(
    rt: &(impl CpuClock + Eprint + Print),
    panel: Panel,
    room: usize,
    line: &[u8],
) -> io::Result<()> {
    let mut scratch = [0u8; 130];
    let mut values = [0u8; 73];
    for (i, &character) in line.iter().take(73).enumerate() {
        values[i] = value_of(character);
    }
    let mut logs = front(&values, line.len()).split(|&b| b == b'/');
    let j = Job {
        panel,
        burned: logs.next().unwrap_or(&[]),
        seen: logs.next().unwrap_or(&[]),
        room,
    };
    try_job(rt, j, &mut scratch)
}

// A pair to a line.
fn try_lines(
    rt: &(impl CpuClock + Eprint + Print),
    p: Panel,
    room: usize,
    lines: &[u8],
) -> io::Result<()> {
    for line in lines.split(|&b| b == b'\n') {
        // Nothing stands behind the last line feed.
        if !line.is_empty() {
            try_line(rt, p, room, line)?;
        }
    }
    Ok(())
}

// On the panel of 3 by 2, with two bytes of scratch to spare.
fn try_logs(rt: &(impl CpuClock + Eprint + Print), name: &[u8], lines: &[u8]) -> io::Result<()> {
    text(rt, name)?;
    try_lines(rt, panel_of(3, 2, PITCH), 8, lines)
}

// Both empty, one empty; another cell; its x and y exchanged; the same cell, a tick earlier, at the same
// tick, later. Several cells, earlier, at the same tick and later, in another order; several before any is
// burned; all behind the last; three at one tick, of which one is burned then; the laser's all at one tick;
// all at one tick; none in both.
fn good_logs(rt: &(impl CpuClock + Eprint + Print)) -> io::Result<()> {
    try_logs(
        rt,
        b"good logs:\n",
        b"/
110005/
/110005
110005/210005
120005/210005
320005/320004
320005/320005
320005/320006
110005210009/210008320008110009
110005210009/320005210009110009
110005210008/110004320009210009
110005210006310007/310000210000120001110004
110005210006310007/310008210008220009
210005310006110007/110006310006220006
110007210007310007/310006110007210008
220004320004110004/110004220004320004
220004320004/110004210004310004120004
",
    )
}

// One byte's one beside 0, the largest beside 0; the numbers of two bytes exchanged; all four. Then twice in
// a log.
fn ticks_far_apart(rt: &(impl CpuClock + Eprint + Print)) -> io::Result<()> {
    try_logs(
        rt,
        b"ticks far apart:\n",
        b"210000/210010
210000/210100
210000/211000
210000/21\xff\xff\xff\xff
210010/210000
210100/210000
211000/210000
21\xff\xff\xff\xff/210000
210012/210021
210120/210210
211200/212100
211234/214321
210021/210012
210210/210120
212100/211200
214321/211234
210012120021/210012120021
210120120210/210120120210
211200122100/211200122100
210000120001/
/21000012\xff\xff\xff\xff
210021120012/
210210120120/
212100121200/
21\xff\xff\xff\xff120000/
/210021120012
/210210120120
/212100121200
/21\xff\xff\xff\xff120000
",
    )
}

// From no byte to 13, of the laser's log, of the camera's, some of both.
fn lengths(rt: &(impl CpuClock + Eprint + Print)) -> io::Result<()> {
    try_logs(
        rt,
        b"6:\n",
        b"/210005
1/210005
11/210005
110/210005
1100/210005
11000/210005
110005/210005
1100052/210005
11000521/210005
110005210/210005
1100052100/210005
11000521000/210005
110005210005/210005
1100052100053/210005
110005/
110005/2
110005/21
110005/210
110005/2100
110005/21000
110005/2100051
110005/21000511
110005/210005110
110005/2100051100
110005/21000511000
110005/210005110005
110005/2100051100053
1/2
110/210
11000/2
1100052/21000
",
    )
}

// 7: a cell beside the panel, in either log, first and behind others. 9: a cell twice, at the same tick and
// later, the first and the last of a log; cells that only the other log has too. 21: a tick that falls, at
// the second entry; at the last, below the one before it and not below the first; a rise behind a fall; ticks
// below the other log's alone.
fn bad_entries(rt: &(impl CpuClock + Eprint + Print)) -> io::Result<()> {
    try_logs(
        rt,
        b"7, 9, 21:\n",
        b"010005/110005
100005/110005
410005/110005
130005/110005
\x8110005/110005
1\x810005/110005
\xff\xff0005/110005
110005/010005
110005/100005
110005/410005
110005/130005
110005/\x8110005
110005/1\x810005
110005/\xff\xff0005
110005320005410005/
110005320005130005/
/110005320005010005
/110005320005100005
110005110005/
/110005110005
320005320006/320005
320005/320005320006
210001120002310003210004/210001
210001/210001120002310003210004
210001120002/120003210004
110005210004/
/110005210004
110005210005310006120005/110009
110009/110005210005310006120005
110005210003310004/110009
110009/110005210003310004
110005210006/110000210001
",
    )
}

// 7, 9 and 21 by two in one log, the later test's entry first and the earlier test's; all three. Each of the
// laser's with each of the camera's. Each with 6, of the same log and of the other.
fn two_faults(rt: &(impl CpuClock + Eprint + Print)) -> io::Result<()> {
    try_logs(
        rt,
        b"two faults:\n",
        b"110005110005410005/
410005110005110005/
110005210004410005/
410005210005310004/
110005210004310005310005/
110005110005310005210004/
110005210004310005310005410005/
410005110005110005210004/
/110005110005410005
/410005110005110005
/110005210004410005
/410005210005310004
/110005210004310005310005
/110005110005310005210004
/110005210004310005310005410005
/410005110005110005210004
410005/410005
410005/110005110005
410005/110005210004
110005110005/410005
110005110005/110005110005
110005110005/110005210004
110005210004/410005
110005210004/110005110005
110005210004/110005210004
4100051/
1100051100051/
1100052100041/
410005/1
110005110005/1
110005210004/1
1/410005
1/110005110005
1/110005210004
/4100051
/1100051100051
/1100052100041
",
    )
}

// The smallest panel: its cell in neither log, in one, in both; twice; off it.
fn one_by_one(rt: &(impl CpuClock + Eprint + Print)) -> io::Result<()> {
    text(rt, b"1 by 1:\n")?;
    try_lines(
        rt,
        panel_of(1, 1, PITCH),
        3,
        b"/
110000/
/110009
110009/110000
110000/110009
110005/110005
110000110000/110000
110000/110000110001
210000/110000
110000/120000
",
    )
}

// ---- panels and scratch

// Empty logs, good ones, and each of the faults of entries and lengths.
fn try_panel(
    rt: &(impl CpuClock + Eprint + Print),
    width: u32,
    height: u32,
    pitch: u32,
    room: usize,
) -> io::Result<()> {
    try_lines(
        rt,
        panel_of(width, height, pitch),
        room,
        b"/
110005/110004
11000/
/11000
010005/
/010005
110005110005/
/110005110005
110005210004/
/110005210004
",
    )
}

fn sides(rt: &(impl CpuClock + Eprint + Print)) -> io::Result<()> {
    text(rt, b"1:\n")?;
    try_panel(rt, 0, 0, PITCH, 130)?;
    try_panel(rt, 0, 2, PITCH, 130)?;
    try_panel(rt, 3, 0, PITCH, 130)?;
    try_panel(rt, 128, 1, PITCH, 130)?;
    try_panel(rt, 1, 128, PITCH, 130)?;
    try_panel(rt, 129, 1, PITCH, 130)?;
    try_panel(rt, 1, 129, PITCH, 130)?;
    try_panel(rt, 65536, 65536, PITCH, 130)?;
    try_panel(rt, MAX, 1, PITCH, 130)?;
    try_panel(rt, 1, MAX, PITCH, 130)
}

// With good sides, and with a bad one.
fn pitches(rt: &(impl CpuClock + Eprint + Print)) -> io::Result<()> {
    text(rt, b"18:\n")?;
    try_panel(rt, 3, 2, 0, 8)?;
    try_panel(rt, 3, 2, 999, 8)?;
    try_panel(rt, 3, 2, 1000, 8)?;
    try_panel(rt, 3, 2, 10000, 8)?;
    try_panel(rt, 3, 2, 10001, 8)?;
    try_panel(rt, 3, 2, MAX, 8)?;
    try_panel(rt, 3, 129, 999, 8)
}

// With good panels; with a bad pitch, and a bad side.
fn rooms(rt: &(impl CpuClock + Eprint + Print)) -> io::Result<()> {
    text(rt, b"5:\n")?;
    try_panel(rt, 3, 2, PITCH, 0)?;
    try_panel(rt, 3, 2, PITCH, 5)?;
    try_panel(rt, 3, 2, PITCH, 6)?;
    try_panel(rt, 128, 1, PITCH, 127)?;
    try_panel(rt, 128, 1, PITCH, 128)?;
    try_panel(rt, 3, 2, 999, 5)?;
    try_panel(rt, 3, 129, PITCH, 5)
}

// ---- every cell

// Of the logs over all rows, and an entry of a cell behind those of 128 by 128, so many entries; scratch for
// so many cells, and two bytes to spare.
fn try_rows(
    rt: &(impl CpuClock + Eprint + Print),
    laser: Rows,
    camera: Rows,
    lasers: usize,
    cameras: usize,
    behind: Cell,
) -> io::Result<()> {
    let mut burned = [0u8; 98310];
    let mut seen = [0u8; 98310];
    let mut scratch = [0u8; 16386];
    put_rows(&mut burned, laser);
    put_rows(&mut seen, camera);
    put_entry(&mut burned, 16384, behind, MAX);
    put_entry(&mut seen, 16384, behind, MAX);
    let j = Job {
        panel: laser.panel,
        burned: front(&burned, lasers % 65536 * 6),
        seen: front(&seen, cameras % 65536 * 6),
        room: 16386,
    };
    try_job(rt, j, &mut scratch)
}

fn rows_of(panel: Panel, backwards: bool, first: u32) -> Rows {
    Rows {
        panel,
        backwards,
        first,
    }
}

// The ticks from these on: both logs forwards, the camera's backwards, the laser's.
fn try_all_rows(
    rt: &(impl CpuClock + Eprint + Print),
    p: Panel,
    burned: u32,
    seen: u32,
) -> io::Result<()> {
    let n = area_of(p);
    let c = Cell { x: 1, y: 1 };
    let laser = rows_of(p, false, burned);
    let camera = rows_of(p, false, seen);
    try_rows(rt, laser, camera, n, n, c)?;
    try_rows(rt, laser, rows_of(p, true, seen), n, n, c)?;
    try_rows(rt, rows_of(p, true, burned), camera, n, n, c)
}

// The camera a tick earlier, at the same tick, a tick later.
fn try_ticks(
    rt: &(impl CpuClock + Eprint + Print),
    p: Panel,
    tick: u32,
    next: u32,
) -> io::Result<()> {
    try_all_rows(rt, p, next, tick)?;
    try_all_rows(rt, p, tick, tick)?;
    try_all_rows(rt, p, tick, next)
}

// Where a byte of the tick ends, and where the sign of 32 bits would; up to the largest tick, and one more,
// which is 0.
fn six_cells(rt: &(impl CpuClock + Eprint + Print)) -> io::Result<()> {
    text(rt, b"3 by 2:\n")?;
    let p = panel_of(3, 2, PITCH);
    try_ticks(rt, p, 0, 1)?;
    try_ticks(rt, p, 253, 254)?;
    try_ticks(rt, p, 65533, 65534)?;
    try_ticks(rt, p, 16777213, 16777214)?;
    try_ticks(rt, p, 2147483645, 2147483646)?;
    try_ticks(rt, p, 4294967289, 4294967290)?;
    try_ticks(rt, p, 4294967290, 4294967291)
}

// The same, and all of the camera's log before the laser's, and behind it.
fn large(rt: &(impl CpuClock + Eprint + Print)) -> io::Result<()> {
    text(rt, b"32 by 32, 128 by 128:\n")?;
    let p = panel_of(128, 128, PITCH);
    try_all_rows(rt, panel_of(32, 32, PITCH), 65000, 65001)?;
    try_ticks(rt, p, 0, 1)?;
    try_ticks(rt, p, 4294950911, 4294950912)?;
    try_ticks(rt, p, 4294950912, 4294950913)?;
    try_all_rows(rt, p, 16777210, 65530)?;
    try_all_rows(rt, p, 65530, 16777210)
}

// So many entries: the laser's forwards, the camera's backwards; another cell behind all of them.
fn try_parts(
    rt: &(impl CpuClock + Eprint + Print),
    lasers: usize,
    cameras: usize,
    behind: Cell,
) -> io::Result<()> {
    let p = panel_of(128, 128, PITCH);
    try_rows(
        rt,
        rows_of(p, false, 1),
        rows_of(p, true, 1),
        lasers,
        cameras,
        behind,
    )
}

// None; half of them; all but one; one more: the first cell, the last, one off the panel.
fn large_parts(rt: &(impl CpuClock + Eprint + Print)) -> io::Result<()> {
    let first = Cell { x: 1, y: 1 };
    let last = Cell { x: 128, y: 128 };
    try_parts(rt, 0, 16384, first)?;
    try_parts(rt, 16384, 0, first)?;
    try_parts(rt, 8192, 16384, first)?;
    try_parts(rt, 16384, 8192, first)?;
    try_parts(rt, 8192, 8192, first)?;
    try_parts(rt, 16383, 16383, first)?;
    try_parts(rt, 16385, 16384, first)?;
    try_parts(rt, 16384, 16385, first)?;
    try_parts(rt, 16385, 0, last)?;
    try_parts(rt, 0, 16385, last)?;
    try_parts(rt, 16385, 16384, Cell { x: 128, y: 129 })?;
    try_parts(rt, 16384, 16385, Cell { x: 129, y: 128 })
}

fn main(rt: HostRuntime) -> io::Result<()> {
    good_logs(&rt)?;
    ticks_far_apart(&rt)?;
    lengths(&rt)?;
    bad_entries(&rt)?;
    two_faults(&rt)?;
    one_by_one(&rt)?;
    sides(&rt)?;
    pitches(&rt)?;
    rooms(&rt)?;
    six_cells(&rt)?;
    large(&rt)?;
    large_parts(&rt)?;
    made_up::run(&rt)
}
