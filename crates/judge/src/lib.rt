// Judge: whether a list of cells is a track from entry to exit. It walks the list once: after each
// cell the kept numbers and the marks in lent scratch decide the answer for the list up to there.
#![tactic(auto)]

ghost use Rattle.std.specs.Prelude.{◌≡◌, true, ◌≤◌, length};
ghost use Rattle.grid.specs.Panel.{good_sides, area};
ghost use Rattle.grid.specs.Bytes.{cells_in};
ghost use Rattle.scratch.specs.Scratch.{cleared, Clean};
ghost use Rattle.judge.specs.Judge.{sizes_check, cells_check, Judges};
ghost use Rattle.judge.specs.Walk.{Decides, Walked};

use grid::{Cell, Cells, Order, Refusal, area_of, ensure};
use judge_walk::{Kept, start, take_cell};
use list::{pairs, whole_cells};
use scratch::clear;

// The refusals that are tested before any cell is looked at.
fn check_sizes(o: Order, bytes: usize, room: usize) -> Result<(), Refusal>
    ensures { result ≡ sizes_check o.panel o.entry o.exit bytes room }
{
    o.check()?;
    ensure(whole_cells(bytes), Refusal::ListLength)?;
    ensure(area_of(o.panel) <= room, Refusal::ShortBuffer)
}

// The answer for a list that the kept numbers stand for: the refusals of its cells, in order.
fn verdict(exit: Cell, kept: Kept) -> Result<(), Refusal>
    ensures { Decides exit kept result }
{
    ensure(kept.on, Refusal::CellOff)?;
    ensure(kept.steps, Refusal::NotNeighbours)?;
    ensure(kept.once, Refusal::Repeated)?;
    ensure(kept.begins && kept.last == Some(exit), Refusal::WrongEnds)
}

// Walks the list in clean scratch. Only a cell off the panel ends the walk: 7 is tested before all
// else, so that no later cell changes it, while a later 7 comes before an 8, and an 8 before a 9.
fn walk(o: Order, list: &[u8], scratch: &mut [u8]) -> Kept
    requires good { good_sides o.panel ≡ true }
    requires clean { Clean o.panel scratch.old }
    ensures { Walked o.panel o.entry (cells_in list.now) scratch.old result scratch.new }
{
    let mut k = start();
    for &pair in pairs(list) {
        k = take_cell(o, k, Cell::from(pair), scratch);
        if !k.on {
            return k;
        }
    }
    k
}

// The refusals of the cells. Scratch is lent dirty and left clean, whichever test fails.
fn check_cells(o: Order, list: &[u8], scratch: &mut [u8]) -> Result<(), Refusal>
    requires good { good_sides o.panel ≡ true }
    requires room { area o.panel ≤ length scratch.old }
    ensures told { result ≡ cells_check o.panel o.entry o.exit (cells_in list.now) }
    ensures left { scratch.new ≡ cleared o.panel scratch.old }
{
    clear(o.panel, scratch); // whatever was lent
    // Told before clearing, so that the kept numbers need not outlast it (docs/PERFORMANCE.md).
    let told = verdict(o.exit, walk(o, list, scratch));
    clear(o.panel, scratch);
    told
}

// Whether the list is a track from entry to exit, and how many cells it has.
pub fn judge(o: Order, list: &[u8], scratch: &mut [u8]) -> Result<Cells, Refusal>
    ensures { Judges o.panel o.entry o.exit list.now scratch.old scratch.new result }
{
    check_sizes(o, list.len(), scratch.len())?;
    check_cells(o, list, scratch)?;
    Ok(Cells((list.len() / 2) as u32))
}
