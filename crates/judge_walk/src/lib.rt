// What Judge keeps of the cells that it has passed, and how it takes the next one. Nothing looks back
// into the list: the kept numbers and the marks in scratch say all that Judge's answer goes by.
#![tactic(auto)]

ghost use Rattle.std.specs.Prelude.{◌+◌, ◌<◌, ◌^◌, ◌≡◌, true};
ghost use Rattle.grid.specs.Panel.{good_sides};
ghost use Rattle.judge_walk.specs.Walk.{StandsForSome, Takes, Begins};

use grid::{Cell, Order, on_panel};
use list::adjacent;
use scratch::place_of;

// The kept numbers of a list of cells.
#[derive(Clone, Copy, Debug, PartialEq, Eq)]
pub struct Kept {
    // Every cell is on the panel.
    pub on: bool,
    // Each two successive cells are neighbours.
    pub steps: bool,
    // No cell stands twice.
    pub once: bool,
    // The first cell is the entry.
    pub begins: bool,
    // The last cell, if there is one.
    pub last: Option<Cell>,
    // The bytes of the list.
    pub bytes: usize,
}

// What is kept before the first cell.
pub fn start() -> Kept
    ensures { Begins result }
{
    Kept {
        on: true,
        steps: true,
        once: true,
        begins: false,
        last: None,
        bytes: 0,
    }
}

// Takes the next cell. What is kept of it is kept without a branch: after a jump marks no longer
// matter, but to ask would cost more.
pub fn take_cell(o: Order, k: Kept, c: Cell, scratch: &mut [u8]) -> Kept
    requires good { good_sides o.panel ≡ true }
    requires stands { StandsForSome o.panel o.entry k scratch.old }
    requires fits { k.bytes + 2 < 2 ^ 64 }
    ensures { Takes o.panel o.entry k c scratch.old result scratch.new }
{
    let bytes = k.bytes + 2;
    if !k.on || !on_panel(o.panel, c) {
        return Kept {
            on: false,
            bytes,
            ..k
        };
    }
    let at = place_of(o.panel, c);
    let next = Kept {
        once: k.once & (scratch[at] == 0),
        last: Some(c),
        bytes,
        ..k
    };
    scratch[at] = 1;
    match k.last {
        None => Kept {
            begins: c == o.entry,
            ..next
        },
        Some(last) => Kept {
            steps: k.steps & adjacent(last, c),
            ..next
        },
    }
}
