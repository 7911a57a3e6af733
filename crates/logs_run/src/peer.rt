// What Compare must answer, by the words of the request: every entry is tested by itself, and its cell is
// searched in the other log from the start.
use crate::call::Job;
use crate::log::{cell_of, entries, tick_of};
use grid::{Cell, Cells, Panel, area_of};
use logs::LogCounts;
use trial::cells::on;

// The first entry with a cell, by its number from 0.
fn place_in(log: &[[u8; 6]], c: Cell) -> Option<usize> {
    log.iter().position(|&entry| cell_of(entry) == c)
}

fn has(log: &[[u8; 6]], c: Cell) -> bool {
    log.iter().any(|&entry| cell_of(entry) == c)
}

// Whether a log has the entry's cell at a later tick.
fn has_later(log: &[[u8; 6]], entry: [u8; 6]) -> bool {
    log.iter()
        .find(|&&other| cell_of(other) == cell_of(entry))
        .is_some_and(|&other| tick_of(entry) < tick_of(other))
}

// ---- refusals

// 1, 18, 6, 5.
pub fn check_sizes(j: Job) -> Result<(), u32> {
    let p = j.panel;
    if !(1..=128).contains(&p.width) || !(1..=128).contains(&p.height) {
        return Err(1);
    }
    if !(1000..=10000).contains(&p.pitch) {
        return Err(18);
    }
    if j.burned.len() % 6 != 0 || j.seen.len() % 6 != 0 {
        return Err(6);
    }
    if j.room < area_of(p) {
        return Err(5);
    }
    Ok(())
}

fn all_on(p: Panel, log: &[[u8; 6]]) -> bool {
    log.iter()
        .all(|&entry| on(p, Cell { x: 1, y: 1 }, cell_of(entry)))
}

// Whether each entry is the first one with its cell.
fn none_again(log: &[[u8; 6]]) -> bool {
    log.iter()
        .enumerate()
        .all(|(i, &entry)| place_in(log, cell_of(entry)) == Some(i))
}

// 7, 9, 21.
fn check_log(p: Panel, log: &[[u8; 6]]) -> Result<(), u32> {
    if !all_on(p, log) {
        return Err(7);
    }
    if !none_again(log) {
        return Err(9);
    }
    if !log.is_sorted_by_key(|&entry| tick_of(entry)) {
        return Err(21);
    }
    Ok(())
}

// ---- the answer

// How many of the log's entries pass the test.
fn passing<F: Fn([u8; 6]) -> bool>(log: &[[u8; 6]], test: F) -> Cells
    requires { F.IsAlwaysCallable test }
{
    Cells((log.iter().filter(|&&entry| test(entry)).count() % 65536) as u32)
}

pub fn expected(j: Job) -> Result<LogCounts, u32> {
    check_sizes(j)?;
    let burned = entries(j.burned);
    let seen = entries(j.seen);
    check_log(j.panel, burned)?;
    check_log(j.panel, seen)?;
    Ok(LogCounts {
        both: passing(seen, |entry| has(burned, cell_of(entry))),
        only_burned: passing(burned, |entry| !has(seen, cell_of(entry))),
        only_seen: passing(seen, |entry| !has(burned, cell_of(entry))),
        earlier: passing(seen, |entry| has_later(burned, entry)),
    })
}
