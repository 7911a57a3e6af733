// Exit: the first cell, rows from the top and each from the left, to which some track from the entry has
// at least a wanted number of cells.
#![tactic(auto)]

ghost use Rattle.std.specs.Prelude.{◌≡◌, ◌≤◌};
ghost use Rattle.grid.specs.Panel.{OnPanel, GoodSides};
ghost use Rattle.grid.specs.Reading.{row, reading};
ghost use Rattle.exit.specs.Exit.{fits, first, first_fit, Exits};
ghost use Rattle.exit.specs.Most.{most};

use cases::is_black;
use class::class_count;
use grid::{Cell, Cells, Order, Panel, Refusal, area_of, check_entry};

// What is looked for: a cell to which some track from the entry, a cell of a panel with good sides, has at
// least the wanted number of cells.
#[derive(Clone, Copy)]
struct Search {
    panel: Panel,
    entry: Cell,
    wanted: Cells,
    ghost sides: { GoodSides panel },
    ghost on: { OnPanel panel entry },
}

impl Search {
    // Whether the cell is not the entry and a track to it has at least the wanted number of cells.
    fn fits(self, c: Cell) -> bool
        requires { OnPanel self.panel c }
        ensures { result ≡ fits self.panel self.entry self.wanted c }
    {
        let order = Order {
            panel: self.panel,
            entry: self.entry,
            exit: c,
        };
        self.entry != c && self.wanted.0 <= class_count(order).count.0
    }

    // The first fit in row y.
    fn in_row(self, y: u32) -> Option<Cell>
        requires { (1 ≤ y) × (y ≤ self.panel.height) }
        ensures { result ≡ first (fits self.panel self.entry self.wanted) (row self.panel y) }
    {
        for x in 1..=self.panel.width {
            let c = Cell { x, y };
            if self.fits(c) {
                return Some(c);
            }
        }
        None
    }

    // The first fit, rows from the top, each from the left.
    fn in_panel(self) -> Option<Cell>
        ensures { result ≡ first (fits self.panel self.entry self.wanted) (reading self.panel) }
    {
        for y in 1..=self.panel.height {
            if let Some(c) = self.in_row(y) {
                return Some(c);
            }
        }
        None
    }

    // The most cells that a track from the entry can have, by the colours alone.
    fn most(self) -> u32
        ensures { result ≡ most self.panel self.entry }
    {
        let area = area_of(self.panel) as u32;
        if is_black(self.entry) {
            2 * (area / 2)
        } else {
            area
        }
    }

    // The first fit. Where the colours say that there is none, no cell is looked at.
    #[tactic(auto, using(crate::proofs::Most::none_above))]
    fn first_fit(self) -> Option<Cell>
        ensures { result ≡ first_fit self.panel self.entry self.wanted }
    {
        if self.most() < self.wanted.0 {
            return None;
        }
        self.in_panel()
    }
}

// The call.
pub fn find_exit(p: Panel, entry: Cell, wanted: Cells) -> Result<Cell, Refusal>
    ensures { Exits p entry wanted result }
{
    check_entry(p, entry)?;
    let search = Search {
        panel: p,
        entry,
        wanted,
    };
    search.first_fit().ok_or(Refusal::NoExit)
}
