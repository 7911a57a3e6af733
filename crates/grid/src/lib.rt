// Cells, panels, orders, counts and refusals: what every call takes and answers with, and the tests
// that the calls share.
#![tactic(auto)]

ghost use Rattle.std.specs.Prelude.{◌≡◌, ◌≤◌, ◌+◌, Ok};
ghost use Rattle.grid.specs.Panel.{between, panel, good_sides, good_pitch, area, on_panel, dist, turned, turned_cell};
ghost use Rattle.grid.specs.Bytes.{cell_of};
ghost use Rattle.grid.specs.Refusal.{number};
ghost use Rattle.grid.specs.Check.{expect, check_panel, check_entry, check_order};
ghost use Rattle.grid.specs.Answer.{cells_values};

// The largest side of a panel.
pub const MAX_SIDE: u32 = 128;

// The smallest and the largest pitch, in micrometres.
const MIN_PITCH: u32 = 1000;

const MAX_PITCH: u32 = 10000;

// A panel of `width` columns (m) and `height` rows (n); the centres of neighbouring cells are `pitch`
// micrometres apart.
#[derive(Clone, Copy, Debug, PartialEq, Eq)]
pub struct Panel {
    pub width: u32,
    pub height: u32,
    pub pitch: u32,
}

// A cell: column x from the left and row y from the top, both from 1.
#[derive(Clone, Copy, Debug, PartialEq, Eq)]
pub struct Cell {
    pub x: u32,
    pub y: u32,
}

// The two bytes of a cell in a list.
impl From<[u8; 2]> for Cell {
    ghost from_gives = { λ b c. c ≡ cell_of b };

    fn from(bytes: [u8; 2]) -> Cell {
        let [x, y] = bytes;
        Cell {
            x: u32::from(x),
            y: u32::from(y),
        }
    }
}

// What a track is asked for: a panel, and the terminals that the track runs between.
#[derive(Clone, Copy, Debug, PartialEq, Eq)]
pub struct Order {
    pub panel: Panel,
    pub entry: Cell,
    pub exit: Cell,
}

// A number of cells, as document 000 measures a track.
#[derive(Clone, Copy, Debug, PartialEq, Eq)]
pub struct Cells(pub u32);

// A number of steps, as document 001 measures a track: one fewer.
#[derive(Clone, Copy, Debug, PartialEq, Eq)]
pub struct Steps(pub u32);

// Why a call refuses. `u32::from` gives its number.
#[derive(Clone, Copy, Debug, PartialEq, Eq)]
pub enum Refusal {
    Side,
    EntryOff,
    ExitOff,
    ShortBuffer,
    ListLength,
    CellOff,
    NotNeighbours,
    Repeated,
    WrongEnds,
    NoExit,
    OneWide,
    Mark,
    StepCount,
    UnknownByte,
    CutShort,
    Pitch,
    BenchSide,
    ProbeBytes,
    TickBack,
    NoSuchEdit,
    NothingRecorded,
}

impl From<Refusal> for u32 {
    ghost from_gives = { λ r n. n ≡ number r };

    fn from(r: Refusal) -> u32 {
        match r {
            Refusal::Side => 1,
            Refusal::EntryOff => 2,
            Refusal::ExitOff => 3,
            Refusal::ShortBuffer => 5,
            Refusal::ListLength => 6,
            Refusal::CellOff => 7,
            Refusal::NotNeighbours => 8,
            Refusal::Repeated => 9,
            Refusal::WrongEnds => 11,
            Refusal::NoExit => 12,
            Refusal::OneWide => 13,
            Refusal::Mark => 14,
            Refusal::StepCount => 15,
            Refusal::UnknownByte => 16,
            Refusal::CutShort => 17,
            Refusal::Pitch => 18,
            Refusal::BenchSide => 19,
            Refusal::ProbeBytes => 20,
            Refusal::TickBack => 21,
            Refusal::NoSuchEdit => 22,
            Refusal::NothingRecorded => 23,
        }
    }
}

// The number of the refusal, 0 where nothing is refused, and the cells, 0 where refused.
#[derive(Clone, Copy, Debug, PartialEq, Eq)]
pub struct CellsValues {
    pub refusal: u32,
    pub cells: Cells,
}

impl From<Result<Cells, Refusal>> for CellsValues {
    ghost from_gives = { λ a v. v ≡ cells_values a };

    fn from(a: Result<Cells, Refusal>) -> CellsValues {
        match a {
            Err(r) => CellsValues {
                refusal: u32::from(r),
                cells: Cells(0),
            },
            Ok(cells) => CellsValues { refusal: 0, cells },
        }
    }
}

// The one way from cells to steps.
pub fn steps_of(cells: Cells) -> Steps
    requires { 1 ≤ cells.0 }
    ensures { result.0 + 1 ≡ cells.0 }
{
    Steps(cells.0 - 1)
}

// Whether a is a number from low to high.
fn between(low: u32, high: u32, a: u32) -> bool
    ensures { result ≡ between low high a }
{
    (low..=high).contains(&a)
}

// The one way that a panel is made.
pub fn panel_of(width: u32, height: u32, pitch: u32) -> Panel
    ensures { result ≡ panel width height pitch }
{
    Panel {
        width,
        height,
        pitch,
    }
}

pub fn turn_panel(p: Panel) -> Panel
    ensures { result ≡ turned p }
{
    panel_of(p.height, p.width, p.pitch)
}

pub fn turn_cell(c: Cell) -> Cell
    ensures { result ≡ turned_cell c }
{
    Cell { x: c.y, y: c.x }
}

// How far two numbers are apart.
#[tactic(auto, unfolding(crate::specs::Panel::dist))]
pub fn distance(a: u32, b: u32) -> u32
    ensures { result ≡ dist a b }
{
    a.abs_diff(b)
}

fn good_sides(p: Panel) -> bool
    ensures { result ≡ good_sides p }
{
    between(1, MAX_SIDE, p.width) && between(1, MAX_SIDE, p.height)
}

fn good_pitch(p: Panel) -> bool
    ensures { result ≡ good_pitch p }
{
    between(MIN_PITCH, MAX_PITCH, p.pitch)
}

// mn, the number of cells of the panel.
pub fn area_of(p: Panel) -> usize
    ensures { result ≡ area p }
{
    (p.width as usize) * (p.height as usize)
}

pub fn on_panel(p: Panel, c: Cell) -> bool
    ensures { result ≡ on_panel p c }
{
    between(1, p.width, c.x) && between(1, p.height, c.y)
}

// What a test that fails refuses.
pub fn ensure(ok: bool, r: Refusal) -> Result<(), Refusal>
    ensures { result ≡ expect ok r (Ok tt) }
{
    if ok { Ok(()) } else { Err(r) }
}

pub fn check_panel(p: Panel) -> Result<(), Refusal>
    ensures { result ≡ check_panel p }
{
    ensure(good_sides(p), Refusal::Side)?;
    ensure(good_pitch(p), Refusal::Pitch)
}

pub fn check_entry(p: Panel, s: Cell) -> Result<(), Refusal>
    ensures { result ≡ check_entry p s }
{
    check_panel(p)?;
    ensure(on_panel(p, s), Refusal::EntryOff)
}

impl Order {
    pub fn check(self) -> Result<(), Refusal>
        ensures { result ≡ check_order self.panel self.entry self.exit }
    {
        check_entry(self.panel, self.entry)?;
        ensure(on_panel(self.panel, self.exit), Refusal::ExitOff)
    }
}
