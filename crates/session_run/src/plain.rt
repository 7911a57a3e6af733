// What edits must do, by the words of the request: each edit makes a new drawing behind the one that it found, so
// that taking back is going back to that one.
ghost use Rattle.std.specs.Prelude.{◌<◌};

use detour::Side;
use grid::{Cell, Cells, Order, Panel};
use session::Command;
use std::array;
use trial::cells::on;

// How many cells a drawing has room for; there are zeros behind its own.
pub const MOST: usize = 32;

// A drawing to each call, and the one before the first.
const DRAWINGS: usize = 201;

// How many edits may be taken back.
const KEPT: u32 = 32;

// ---- ways

#[derive(Clone, Copy, Debug, PartialEq, Eq)]
enum Way {
    Right,
    Down,
    Left,
    Up,
}

impl Way {
    // From a cell to the next.
    fn between(a: Cell, b: Cell) -> Way {
        if a.x < b.x {
            return Way::Right;
        }
        if b.x < a.x {
            return Way::Left;
        }
        if a.y < b.y { Way::Down } else { Way::Up }
    }

    // Turned a quarter to the right.
    fn turned(self) -> Way {
        match self {
            Way::Right => Way::Down,
            Way::Down => Way::Left,
            Way::Left => Way::Up,
            Way::Up => Way::Right,
        }
    }

    fn back(self) -> Way {
        self.turned().turned()
    }

    // Where a detour on that side goes.
    fn aside(self, side: Side) -> Way {
        match side {
            Side::Left => self.turned().back(),
            Side::Right => self.turned(),
        }
    }

    // The next cell that way.
    fn step(self, c: Cell) -> Cell {
        let (x, y) = match self {
            Way::Right => (c.x.wrapping_add(1), c.y),
            Way::Down => (c.x, c.y.wrapping_add(1)),
            Way::Left => (c.x.wrapping_sub(1), c.y),
            Way::Up => (c.x, c.y.wrapping_sub(1)),
        };
        Cell { x, y }
    }
}

// ---- drawings

// The cells, and how many they are: nothing here allocates.
#[derive(Clone, Copy, Debug, PartialEq, Eq)]
pub struct Drawing {
    pub cells: [Cell; MOST],
    pub count: u32,
}

impl Drawing {
    // Cell i, from 0; (0, 0) behind the last.
    fn cell(&self, i: u32) -> Cell {
        self.cells
            .get(i as usize)
            .map_or(Cell { x: 0, y: 0 }, |&c| c)
    }

    // The way from the cell at a place, counted from 1, to the next.
    fn way_from(&self, place: u32) -> Way {
        Way::between(self.cell(place.wrapping_sub(1)), self.cell(place))
    }

    // Whether a detour may take a cell.
    fn is_free(&self, panel: Panel, c: Cell) -> bool {
        on(panel, Cell { x: 1, y: 1 }, c) && !self.cells.contains(&c)
    }

    // The two cells beside the step from a place.
    fn detour(&self, place: u32, side: Side) -> [Cell; 2] {
        let aside = self.way_from(place).aside(side);
        [
            aside.step(self.cell(place.wrapping_sub(1))),
            aside.step(self.cell(place)),
        ]
    }

    fn can_bulge(&self, panel: Panel, place: u32, side: Side) -> bool {
        let [first, second] = self.detour(place, side);
        place < self.count && self.is_free(panel, first) && self.is_free(panel, second)
    }

    // Whether the third step from the place goes back as the first went.
    fn can_press(&self, place: u32) -> bool {
        let third = place.wrapping_add(2);
        third < self.count && self.way_from(third) == self.way_from(place).back()
    }

    fn bulged(&self, place: u32, side: Side) -> Drawing {
        let [first, second] = self.detour(place, side);
        Drawing {
            cells: array::from_fn(|k| {
                let i = k as u32;
                if i < place {
                    self.cell(i)
                } else if i == place {
                    first
                } else if i == place.wrapping_add(1) {
                    second
                } else {
                    self.cell(i.wrapping_sub(2))
                }
            }),
            count: self.count.wrapping_add(2),
        }
    }

    fn pressed(&self, place: u32) -> Drawing {
        Drawing {
            cells: array::from_fn(|k| {
                let i = k as u32;
                if i < place {
                    self.cell(i)
                } else {
                    self.cell(i.wrapping_add(2))
                }
            }),
            count: self.count.wrapping_sub(2),
        }
    }

    // The drawing after an edit, if it can be made.
    pub fn edited(&self, panel: Panel, c: Command) -> Option<Drawing> {
        match c {
            Command::Bulge(place, side) if place != 0 && self.can_bulge(panel, place, side) => {
                Some(self.bulged(place, side))
            }
            Command::Press(place) if place != 0 && self.can_press(place) => {
                Some(self.pressed(place))
            }
            _ => None,
        }
    }
}

// ---- what is left

// All drawings that were made, and which of them is there; how many cells the lent buffer has room for; how many
// edits may be taken back.
#[derive(Clone, Copy)]
pub struct Plain {
    drawings: [Drawing; DRAWINGS],
    at: usize,
    pub room: u32,
    pub kept: u32,
    ghost there: { at < 201 },
}

impl Plain {
    // A step, with nothing to take back.
    pub fn start(o: Order, room: u32) -> Plain {
        let mut cells = [Cell { x: 0, y: 0 }; MOST];
        cells[0] = o.entry;
        cells[1] = o.exit;
        Plain {
            drawings: [Drawing { cells, count: 2 }; DRAWINGS],
            at: 0,
            room,
            kept: 0,
        }
    }

    pub fn drawing(&self) -> &Drawing {
        &self.drawings[self.at]
    }

    fn go_on(&mut self, d: Drawing) {
        if self.at + 1 < DRAWINGS {
            self.at += 1;
        }
        self.drawings[self.at] = d;
        self.kept = KEPT.min(self.kept.wrapping_add(1));
    }

    fn go_back(&mut self) {
        self.at = self.at.saturating_sub(1);
        self.kept = self.kept.saturating_sub(1);
    }

    // What the call must answer, a refusal by its number; it must leave the drawing that is there then.
    pub fn answer(&mut self, panel: Panel, c: Command) -> Result<Cells, u32> {
        match c {
            Command::TakeBack => {
                if self.kept == 0 {
                    return Err(23);
                }
                self.go_back();
            }
            Command::Bulge(_, _) | Command::Press(_) => {
                let Some(next) = self.drawing().edited(panel, c) else {
                    return Err(22);
                };
                if self.room < next.count {
                    return Err(5);
                }
                self.go_on(next);
            }
        }
        Ok(Cells(self.drawing().count))
    }
}
