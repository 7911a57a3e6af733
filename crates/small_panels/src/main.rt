// Every panel up to 5 by 5 against a search through all tracks from an entry, which knows nothing of the
// router: for every ordered pair of cells, equal or not, Bound's count and Draw's track; for every entry and
// wanted count Exit's cell, against a plain scan of what the search found. Prints, for each class, the
// number of pairs and the sum of their counts; how many pairs were wrong; how often Exit was to give a
// cell, how often none, and how often it answered otherwise.
#![tactic(auto)]

ghost use Rattle.std.specs.Prelude.{◌<◌};

use bound::BoundValues;
use grid::{Cell, Cells, Order, Panel, panel_of};
use std::io;
use trial::PITCH;
use trial::cells::is_track;

// How many places the cells of a panel up to 5 by 5 have.
const PLACES: usize = 36;

// How many of such a panel's cells a track may have.
const MOST: u32 = 25;

// Pairs and cells of a class.
#[derive(Clone, Copy, Debug, Default, PartialEq, Eq)]
struct Class {
    pairs: u32,
    cells: u32,
}

// Each class by its number, and the wrong pairs; and how Exit answered.
#[derive(Clone, Copy)]
struct Totals {
    classes: [Class; 7],
    wrong: u32,
    given: u32,
    none: u32,
    exits_wrong: u32,
}

// The cells from (1, 1) on, in rows of five.
fn nth(i: u32) -> Cell {
    Cell {
        x: i % 5 + 1,
        y: i / 5 + 1,
    }
}

fn on(p: Panel, c: Cell) -> bool {
    trial::cells::on(p, nth(0), c)
}

// A number of its own for each cell of a panel up to 5 by 5.
fn place(c: Cell) -> usize
    ensures { result < 36 }
{
    (c.y % 6 * 6 + c.x % 6) as usize
}

// ---- the search

// The search from an entry: the cells that the track so far has, and the most cells of a track to each cell.
#[derive(Clone, Copy)]
struct Search {
    panel: Panel,
    passed: [bool; PLACES],
    best: [u32; PLACES],
}

// The cells in the four directions.
fn around(c: Cell) -> [Cell; 4] {
    let Cell { x, y } = c;
    [
        Cell {
            x: x.wrapping_add(1),
            y,
        },
        Cell {
            x,
            y: y.wrapping_add(1),
        },
        Cell {
            x: x.wrapping_sub(1),
            y,
        },
        Cell {
            x,
            y: y.wrapping_sub(1),
        },
    ]
}

impl Search {
    // Goes on to c, the last of `cells` cells, and from there in each direction. No track has more than are
    // `left`.
    fn visit(&mut self, c: Cell, cells: u32, left: u32) {
        let at = place(c);
        if left == 0 || !on(self.panel, c) || self.passed[at] {
            return;
        }
        self.best[at] = self.best[at].max(cells);
        self.passed[at] = true;
        for next in around(c) {
            self.visit(next, cells.wrapping_add(1), left - 1);
        }
        self.passed[at] = false;
    }

    // The most cells of a track to c.
    fn most(&self, c: Cell) -> u32 {
        self.best[place(c)]
    }
}

fn searched(panel: Panel, entry: Cell) -> Search {
    let mut search = Search {
        panel,
        passed: [false; PLACES],
        best: [0; PLACES],
    };
    search.visit(entry, 1, MOST);
    search
}

// ---- the comparison

// Whether Bound's count and Draw's are the search's, and the cells drawn are a track.
fn right(o: Order, count: Cells, search: &Search) -> bool {
    let mut buf = [0u8; 50];
    search.most(o.exit) == count.0
        && draw::draw(o, &mut buf) == Ok(count)
        && is_track(&buf, o, nth(0), count.0)
}

fn add_pair(t: &mut Totals, o: Order, search: &Search) {
    let b = BoundValues::from(bound::bound(o));
    let at = (b.class % 7) as usize;
    let class = t.classes[at];
    t.classes[at] = Class {
        pairs: class.pairs.wrapping_add(1),
        cells: class.cells.wrapping_add(b.count.0),
    };
    if !right(o, b.count, search) {
        t.wrong = t.wrong.wrapping_add(1);
    }
}

// ---- exits

// The first exit, rows from the top and each from the left: another cell of the panel than the entry, to which
// the search found a track of so many cells.
fn scan(search: &Search, entry: Cell, wanted: u32) -> Option<Cell> {
    for code in 0..25 {
        let c = nth(code);
        if on(search.panel, c) && c != entry && wanted <= search.most(c) {
            return Some(c);
        }
    }
    None
}

fn add_wanted(t: &mut Totals, search: &Search, entry: Cell, wanted: u32) {
    let expected = scan(search, entry, wanted).ok_or(12);
    let got = exit::find_exit(search.panel, entry, Cells(wanted)).map_err(|r| u32::from(r));
    if expected.is_ok() {
        t.given = t.given.wrapping_add(1);
    } else {
        t.none = t.none.wrapping_add(1);
    }
    if got != expected {
        t.exits_wrong = t.exits_wrong.wrapping_add(1);
    }
}

// ---- the panels

// Each exit and each wanted count of an entry, up to two more than the largest of these panels has cells.
fn add_entry(t: &mut Totals, panel: Panel, entry: Cell) {
    let search = searched(panel, entry);
    for code in 0..25 {
        let exit = nth(code);
        if on(panel, exit) {
            add_pair(t, Order { panel, entry, exit }, &search);
        }
    }
    for wanted in 0..28 {
        add_wanted(t, &search, entry, wanted);
    }
}

// Each entry of a panel.
fn add_panel(t: &mut Totals, panel: Panel) {
    for code in 0..25 {
        let entry = nth(code);
        if on(panel, entry) {
            add_entry(t, panel, entry);
        }
    }
}

fn all_panels() -> Totals {
    let mut t = Totals {
        classes: [Class::default(); 7],
        wrong: 0,
        given: 0,
        none: 0,
        exits_wrong: 0,
    };
    for code in 0..25 {
        let far = nth(code);
        add_panel(&mut t, panel_of(far.x, far.y, PITCH));
    }
    t
}

fn main(rt: HostRuntime) -> io::Result<()> {
    let t = all_panels();
    for (number, class) in t.classes.iter().enumerate().skip(1) {
        println!(&rt;
            "class {number}: pairs {}, cells {}",
            class.pairs, class.cells
        )?;
    }
    println!(&rt; "wrong {}", t.wrong)?;
    println!(&rt;
        "exits: given {}, none {}, wrong {}",
        t.given, t.none, t.exits_wrong
    )
}
