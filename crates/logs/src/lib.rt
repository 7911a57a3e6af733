// Compare: the log of the laser, which burns the cells of a foil, beside that of the camera, which sees them.
// One walk over both in the order of ticks, with the marks of their cells in lent scratch.
#![tactic(auto)]

ghost use Rattle.std.specs.Prelude.{◌≡◌, true, ◌≤◌, length, drop};
ghost use Rattle.grid.specs.Panel.{good_sides, area};
ghost use Rattle.scratch.specs.Scratch.{Clean};
ghost use Rattle.log_entries.specs.Log.{entries_in, entries_of};
ghost use Rattle.logs.specs.Counts.{in_both, seen_earlier, counts_of};
ghost use Rattle.logs.specs.Logs.{sizes_check, Compares};
ghost use Rattle.logs.specs.Walk.{BothGood, HoldsMarks, Passes, entries_answer};

use grid::{Cells, Panel, Refusal, area_of, check_panel, ensure};
use log_entries::{ENTRY, Entry, check_log, entries, whole_entries};
use scratch::{clear, place_of};

// The mark of a place in scratch: its cell is the laser's, and its entry still ahead; the camera's; or both. 0
// once the laser's entry is passed. They are bytes, and no enum: they stand in the caller's scratch.
const LASER: u8 = 1;

const CAMERA: u8 = 2;

const BOTH: u8 = 3;

// How many cells are in both logs, only burned, only seen, and seen at an earlier tick than burned.
#[derive(Clone, Copy, Debug, PartialEq, Eq)]
pub struct LogCounts {
    pub both: Cells,
    pub only_burned: Cells,
    pub only_seen: Cells,
    pub earlier: Cells,
}

// The refusals that are tested before any entry is looked at, for logs and scratch of so many bytes.
fn check_sizes(p: Panel, burned: usize, seen: usize, room: usize) -> Result<(), Refusal>
    ensures { result ≡ sizes_check p burned seen room }
{
    check_panel(p)?;
    ensure(whole_entries(burned), Refusal::ListLength)?;
    ensure(whole_entries(seen), Refusal::ListLength)?;
    ensure(area_of(p) <= room, Refusal::ShortBuffer)
}

// How many of the camera's cells are the laser's, and how many of them were not burned yet when seen.
#[derive(Clone, Copy)]
struct Met {
    both: u32,
    earlier: u32,
}

// Two logs that pass their tests, by their entries, and the panel that they are of.
#[derive(Clone, Copy)]
struct GoodLogs<'a> {
    panel: Panel,
    burned: &'a [[u8; ENTRY]],
    seen: &'a [[u8; ENTRY]],
    ghost good: { BothGood panel (entries_of burned.now) (entries_of seen.now) },
}

impl<'a> GoodLogs<'a> {
    // Passes the laser's entries up to this tick, the first `passed` being passed already, and erases the mark
    // of each. Gives how many are passed then.
    fn pass(&self, passed: usize, tick: u32, scratch: &mut [u8]) -> usize
        requires { area self.now.panel ≤ length scratch.old }
        ensures { Passes self.now.panel (entries_of self.now.burned.now) passed tick scratch.old result scratch.new }
    {
        for i in passed..self.burned.len() {
            let entry = Entry::from(self.burned[i]);
            if tick < entry.tick {
                return i;
            }
            scratch[place_of(self.panel, entry.cell)] = 0;
        }
        self.burned.len()
    }

    // The one walk, in the order of ticks, the laser's entry first at equal ticks. A seen cell that is marked
    // as both is not burned yet; with the camera's mark alone it is not the laser's; with its mark gone it is
    // burned.
    fn walk(&self, scratch: &mut [u8]) -> Met
        requires { HoldsMarks self.now.panel (entries_of self.now.burned.now) (entries_of self.now.seen.now) scratch.old }
        ensures both { result.both ≡ in_both (entries_of self.now.seen.now) (entries_of self.now.burned.now) }
        ensures earlier { result.earlier ≡ seen_earlier (entries_of self.now.burned.now) (entries_of self.now.seen.now) }
        ensures rest { drop (area self.now.panel) scratch.new ≡ drop (area self.now.panel) scratch.old }
    {
        let mut both = 0;
        let mut earlier = 0;
        let mut passed = 0;
        for &bytes in self.seen {
            let entry = Entry::from(bytes);
            passed = self.pass(passed, entry.tick, scratch);
            let mark = scratch[place_of(self.panel, entry.cell)];
            both += u32::from(mark != CAMERA);
            earlier += u32::from(mark == BOTH);
        }
        Met { both, earlier }
    }

    // The four numbers: what is in one log and not in both is only there.
    fn count_cells(&self, scratch: &mut [u8]) -> LogCounts
        requires { HoldsMarks self.now.panel (entries_of self.now.burned.now) (entries_of self.now.seen.now) scratch.old }
        ensures told { result ≡ counts_of (entries_of self.now.burned.now) (entries_of self.now.seen.now) }
        ensures rest { drop (area self.now.panel) scratch.new ≡ drop (area self.now.panel) scratch.old }
    {
        let met = self.walk(scratch);
        let burned_entries = self.burned.len() as u32;
        let seen_entries = self.seen.len() as u32;
        LogCounts {
            both: Cells(met.both),
            only_burned: Cells(burned_entries - met.both),
            only_seen: Cells(seen_entries - met.both),
            earlier: Cells(met.earlier),
        }
    }
}

// The answer behind the sizes, in clean scratch: each log is tested, then their cells are counted.
fn compare_entries(
    p: Panel,
    burned: &[u8],
    seen: &[u8],
    scratch: &mut [u8],
) -> Result<LogCounts, Refusal>
    requires good { good_sides p ≡ true }
    requires clean { Clean p scratch.old }
    ensures told { result ≡ entries_answer p (entries_in burned.now) (entries_in seen.now) }
    ensures rest { drop (area p) scratch.new ≡ drop (area p) scratch.old }
{
    check_log(p, burned, LASER, scratch)?;
    check_log(p, seen, CAMERA, scratch)?;
    let logs = GoodLogs {
        panel: p,
        burned: entries(burned),
        seen: entries(seen),
    };
    Ok(logs.count_cells(scratch))
}

// How the laser's log and the camera's agree. Scratch is untouched where the sizes are refused; else it is lent
// dirty and left clean.
pub fn compare(
    p: Panel,
    burned: &[u8],
    seen: &[u8],
    scratch: &mut [u8],
) -> Result<LogCounts, Refusal>
    ensures { Compares p burned.now seen.now scratch.old scratch.new result }
{
    check_sizes(p, burned.len(), seen.len(), scratch.len())?;
    clear(p, scratch); // whatever was lent
    let told = compare_entries(p, burned, seen, scratch);
    clear(p, scratch); // whatever was marked
    told
}
