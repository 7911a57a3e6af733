// A log of a laser-cut foil: its entries, six bytes each, and what is tested of it. The test that no cell
// stands twice leaves a mark at the place of each cell in scratch.
#![tactic(auto)]

ghost use Rattle.std.specs.Prelude.{◌≡◌, true, ◌≤◌, leb, drop, Ok};
ghost use Rattle.grid.specs.Panel.{good_sides, area};
ghost use Rattle.list.specs.List.{all_on, none_twice};
ghost use Rattle.log_entries.specs.Log.{entry_of, entries_of, entries_in, whole_entries, cells_of, rises, log_check};
ghost use Rattle.log_entries.specs.Marks.{HoldsBelow, Adds};

use grid::{Cell, Panel, Refusal, ensure, on_panel};
use scratch::place_of;

// How many bytes an entry has: x, y, and the tick in four.
pub const ENTRY: usize = 6;

// An entry: which cell, and when.
#[derive(Clone, Copy, Debug, PartialEq, Eq)]
pub struct Entry {
    pub cell: Cell,
    pub tick: u32,
}

// The bytes of an entry; the tick's high byte stands first.
impl From<[u8; ENTRY]> for Entry {
    ghost from_gives = { λ b e. e ≡ entry_of b };

    fn from(bytes: [u8; ENTRY]) -> Entry {
        let [x, y, a, b, c, d] = bytes;
        Entry {
            cell: Cell::from([x, y]),
            tick: u32::from_be_bytes([a, b, c, d]),
        }
    }
}

// Whether so many bytes hold entries and nothing else.
pub fn whole_entries(bytes: usize) -> bool
    ensures { result ≡ whole_entries bytes }
{
    bytes % ENTRY == 0
}

// The bytes of each entry of a log; fewer at the end are none.
pub fn entries(log: &[u8]) -> &[[u8; ENTRY]]
    ensures { entries_of result.now ≡ entries_in log.now }
{
    log.as_chunks::<ENTRY>().0
}

// Whether every cell of the log is on the panel.
fn all_on(p: Panel, log: &[[u8; ENTRY]]) -> bool
    ensures { result ≡ all_on p (cells_of (entries_of log.now)) }
{
    log.iter()
        .all(|&bytes| on_panel(p, Entry::from(bytes).cell))
}

// Whether no cell of the log stands twice. A place holds less than the mark until its cell is met; then the
// mark is added. So where it holds as much already, the cell was met before.
fn mark_once(p: Panel, log: &[[u8; ENTRY]], mark: u8, scratch: &mut [u8]) -> bool
    requires good { good_sides p ≡ true }
    requires on { all_on p (cells_of (entries_of log.now)) ≡ true }
    requires ready { HoldsBelow p mark scratch.old }
    requires small { mark ≤ 127 }
    ensures told { result ≡ none_twice (cells_of (entries_of log.now)) }
    ensures rest { drop (area p) scratch.new ≡ drop (area p) scratch.old }
    ensures marks { result ≡ true → Adds p mark (entries_of log.now) scratch.old scratch.new }
{
    for &bytes in log {
        let held = &mut scratch[place_of(p, Entry::from(bytes).cell)];
        if mark <= *held {
            return false;
        }
        *held += mark;
    }
    true
}

// Whether the second entry's tick is not below the first's.
fn in_order(a: Entry, b: Entry) -> bool
    ensures { result ≡ leb a.tick b.tick }
{
    a.tick <= b.tick
}

// Whether no tick is below the one before it.
fn rises(log: &[[u8; ENTRY]]) -> bool
    ensures { result ≡ rises (entries_of log.now) }
{
    log.is_sorted_by(|&a, &b| in_order(Entry::from(a), Entry::from(b)))
}

// 7, 9, then 21. Where none is met, the mark is added at the places of the log's cells.
//
// A function by itself also when compiled: as a part of its caller its loops would set the caller's whole answer
// at each entry.
#[inline(never)]
pub fn check_log(p: Panel, log: &[u8], mark: u8, scratch: &mut [u8]) -> Result<(), Refusal>
    requires good { good_sides p ≡ true }
    requires ready { HoldsBelow p mark scratch.old }
    requires small { mark ≤ 127 }
    ensures told { result ≡ log_check p (entries_in log.now) }
    ensures rest { drop (area p) scratch.new ≡ drop (area p) scratch.old }
    ensures marks { result ≡ Ok tt → Adds p mark (entries_in log.now) scratch.old scratch.new }
{
    let log = entries(log);
    ensure(all_on(p, log), Refusal::CellOff)?;
    ensure(mark_once(p, log, mark, scratch), Refusal::Repeated)?;
    ensure(rises(log), Refusal::TickBack)
}
