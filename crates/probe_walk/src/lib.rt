// Probes: cells of a foil that inspection touches. Where each stands on a track is found in one walk of it,
// by marks in scratch; for one that is not on it the nearest cell is searched.
#![tactic(auto)]

ghost use Rattle.std.specs.Prelude.{◌≡◌, true, [], ◌*◌, ◌≤◌, length, drop, map, replicate};
ghost use Rattle.list.specs.List.{all_on, none_twice};
ghost use Rattle.grid.specs.Panel.{area};
ghost use Rattle.grid.specs.Bytes.{InBytes, cell_of, cells_in};
ghost use Rattle.scratch.specs.Scratch.{Clean};
ghost use Rattle.probe_walk.specs.Probes.{nearest, cells_read, places, positions, nearest_cells};
ghost use Rattle.probe_walk.specs.Search.{found_on, Probed, Searched, unfound, Marked, Noted, noted_positions};

use grid::{Cell, Cells, Panel};
use list::{cell_at, pairs, squared_distance};
use scratch::{clear, place_of};

// How many probes a sheet has places for.
pub const PLACES: usize = 64;

// The positions of the probes, 0 for one that is not on the track and at unused places, and how many
// cells of the track were read for them.
#[derive(Clone, Copy, Debug, PartialEq, Eq)]
pub struct Found {
    pub positions: [u32; PLACES],
    pub read: Cells,
}

// The probes, by the two bytes of each: at most 64 cells of the panel.
#[derive(Clone, Copy)]
struct Touched<'a> {
    panel: Panel,
    probes: &'a [[u8; 2]],
    ghost probed: { Probed panel (map cell_of probes.now) },
}

impl<'a> Touched<'a> {
    // Marks each probed cell of clean scratch with the number of its first probe. Gives how many different
    // cells there are.
    fn mark(&self, scratch: &mut [u8]) -> usize
        requires clean { Clean self.now.panel scratch.old }
        ensures marks { Marked self.now.panel (map cell_of self.now.probes.now) scratch.new }
        ensures rest { drop (area self.now.panel) scratch.new ≡ drop (area self.now.panel) scratch.old }
        ensures told { result ≡ unfound (map cell_of self.now.probes.now) [] }
    {
        let mut different = 0;
        for (i, &pair) in self.probes.iter().enumerate() {
            let place = place_of(self.panel, Cell::from(pair));
            if scratch[place] == 0 {
                scratch[place] = (i + 1) as u8;
                different += 1;
            }
        }
        different
    }

    // The one walk: marks the probes, reads the list until every probed cell is found, and notes each one's
    // position at its mark. Gives how many cells it read.
    fn find(&self, list: &[u8], scratch: &mut [u8], found: &mut [u32]) -> usize
        requires inside { all_on self.now.panel (cells_in list.now) ≡ true }
        requires once { none_twice (cells_in list.now) ≡ true }
        requires short { length list.now ≤ 32768 }
        requires clean { Clean self.now.panel scratch.old }
        requires empty { found.old ≡ replicate places 0 }
        ensures marks { Marked self.now.panel (map cell_of self.now.probes.now) scratch.new }
        ensures rest { drop (area self.now.panel) scratch.new ≡ drop (area self.now.panel) scratch.old }
        ensures notes { Noted (map cell_of self.now.probes.now) (cells_in list.now) found.new }
        ensures told { result ≡ cells_read (map cell_of self.now.probes.now) (cells_in list.now) }
    {
        let mut left = self.mark(scratch);
        let mut read = 0;
        for &pair in pairs(list) {
            if left == 0 {
                return read;
            }
            let mark = scratch[place_of(self.panel, Cell::from(pair))] as usize;
            read += 1;
            if mark != 0 {
                found[mark - 1] = read as u32;
                left -= 1;
            }
        }
        read
    }

    // What is noted for every probe, at its cell's mark.
    fn noted(&self, scratch: &[u8], found: &[u32]) -> [u32; PLACES]
        requires marks { Marked self.now.panel (map cell_of self.now.probes.now) scratch.now }
        requires room { places ≤ length found.now }
        ensures { result ≡ noted_positions (map cell_of self.now.probes.now) found.now }
    {
        let mut positions = [0u32; PLACES];
        for (i, &pair) in self.probes.iter().enumerate() {
            let mark = scratch[place_of(self.panel, Cell::from(pair))] as usize;
            positions[i] = found[mark - 1];
        }
        positions
    }
}

// Finds the probes on the list in clean scratch, which is left clean.
pub fn find_probes(p: Panel, list: &[u8], probes: &[u8], scratch: &mut [u8]) -> Found
    requires searched { Searched p list.now probes.now }
    requires clean { Clean p scratch.old }
    ensures found { result ≡ found_on (cells_in probes.now) (cells_in list.now) }
    ensures left { scratch.new ≡ scratch.old }
{
    let touched = Touched {
        panel: p,
        probes: pairs(probes),
    };
    let mut found = [0u32; PLACES];
    let read = touched.find(list, scratch, &mut found) as u32;
    let positions = touched.noted(scratch, &found);
    clear(p, scratch);
    Found {
        positions,
        read: Cells(read),
    }
}

// The nearest cell of a list that is not empty.
fn nearest_to(list: &[u8], c: Cell) -> Cell
    requires some { 2 ≤ length list.now }
    requires fits { InBytes c }
    ensures { result ≡ nearest c (cells_in list.now) }
{
    let mut nearest = cell_at(list, 0);
    let mut least = squared_distance(c, nearest);
    for &pair in pairs(list) {
        let next = Cell::from(pair);
        let away = squared_distance(c, next);
        if away < least {
            nearest = next;
            least = away;
        }
    }
    nearest
}

// The nearest cell for every probe whose position is 0; (0, 0) for a found one and at unused places.
pub fn nearest_cells(list: &[u8], probes: &[u8], found: [u32; PLACES]) -> [Cell; PLACES]
    requires some { 2 ≤ length list.now }
    requires few { length probes.now ≤ 2 * places }
    requires found { found ≡ positions (cells_in probes.now) (cells_in list.now) }
    ensures { result ≡ nearest_cells (cells_in probes.now) (cells_in list.now) }
{
    let none = Cell { x: 0, y: 0 };
    let mut cells = [none; PLACES];
    for (i, &pair) in pairs(probes).iter().enumerate() {
        if found[i] == 0 {
            cells[i] = nearest_to(list, Cell::from(pair));
        }
    }
    cells
}
