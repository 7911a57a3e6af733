// An edit session: a drawing is edited by bulges and presses, and its last edits can be taken back. The session
// is lent to the one call; the list is in a lent buffer beside it.
#![tactic(auto)]

ghost use Rattle.std.specs.Prelude.{◌≡◌, true, Err, Ok, ◌+◌, ◌-◌, ◌*◌, ◌≤◌, length};
ghost use Rattle.grid.specs.Panel.{good_sides};
ghost use Rattle.grid.specs.Check.{expect, answer};
ghost use Rattle.grid.specs.Bytes.{cells_in, front};
ghost use Rattle.grid.specs.declared.Refusal.TheVariants.{NothingRecorded};
ghost use Rattle.detour.specs.Detour.{of_kind};
ghost use Rattle.session.specs.Session.{kept_edits, new_session, list_cells, ready, newest, meant, on_record, off_record, changed};
ghost use Rattle.session.specs.Edits.{edit_test, EditLeaves, Edits};

use detour::{Edit, Kind, Side};
use edit_list::{can_edit, make, opposite, press_at};
use grid::{Cells, Order, Panel, Refusal, ensure};
use judge::judge;

// How many edits a session keeps.
const KEPT_EDITS: usize = 32;

// An edit session, which is an undo history: the cell count of a drawing, how many edits are recorded, and the
// edits, oldest first. Its parts are open and bound by nothing, since the call keeps its promise for whatever a
// caller hands in: a count that the buffer does not hold, more edits than are kept, edits that were never made.
#[derive(Clone, Copy, Debug, PartialEq, Eq)]
pub struct Session {
    pub count: Cells,
    pub recorded: u32,
    pub edits: [Edit; KEPT_EDITS],
}

// A bulge at a place and on a side; a press at a place; or the newest edit taken back.
#[derive(Clone, Copy, Debug, PartialEq, Eq)]
pub enum Command {
    Bulge(u32, Side),
    Press(u32),
    TakeBack,
}

// What the call answers, with the session that it leaves.
#[derive(Clone, Copy, Debug, PartialEq, Eq)]
pub struct Edited {
    pub session: Session,
    pub answer: Result<Cells, Refusal>,
}

// A session without edits. The count is not tested.
pub fn new_session(count: Cells) -> Session
    ensures { result ≡ new_session count }
{
    let none = Edit {
        place: 0,
        kind: Kind::Press,
        side: Side::Right,
    };
    Session {
        count,
        recorded: 0,
        edits: [none; KEPT_EDITS],
    }
}

impl Session {
    // How many cells of a buffer are the session's list; 0, which Judge refuses, where the buffer has fewer than
    // the count or too many edits are claimed.
    fn list_cells(&self, bytes: usize) -> usize
        ensures { result ≡ list_cells self.now bytes }
    {
        let cells = self.count.0 as usize;
        if 2 * cells <= bytes && self.recorded as usize <= KEPT_EDITS {
            cells
        } else {
            0
        }
    }

    // The newest recorded edit.
    fn newest(&self) -> Edit
        requires { (1 ≤ self.now.recorded) × (self.now.recorded ≤ kept_edits) }
        ensures { result ≡ newest self.now }
    {
        self.edits[self.recorded as usize - 1]
    }

    // Records an edit that made a list of so many cells. Where the record is full the oldest edit goes.
    fn add(&mut self, e: Edit, count: Cells)
        ensures { self.new ≡ on_record e count.0 self.old }
    {
        self.count = count;
        let k = self.recorded as usize;
        if KEPT_EDITS <= k {
            self.edits.copy_within(1.., 0);
            self.edits[KEPT_EDITS - 1] = e;
        } else {
            self.edits[k] = e;
            self.recorded += 1;
        }
    }

    // Takes the newest edit off the record.
    fn remove(&mut self, count: Cells)
        ensures { self.new ≡ off_record count.0 self.old }
    {
        self.count = count;
        self.recorded = self.recorded.saturating_sub(1);
    }
}

impl Command {
    // The edit that the command makes of the list; 23 where none is recorded to take back.
    fn meant(self, s: &Session, list: &[u8]) -> Result<Edit, Refusal>
        requires few { s.now.recorded ≤ kept_edits }
        ensures { result ≡ answer (expect (ready self s.now) NothingRecorded (Ok tt)) Err (Ok (meant self s.now (cells_in list.now))) }
    {
        match self {
            Command::Bulge(place, side) => Ok(Edit {
                place,
                kind: Kind::Bulge,
                side,
            }),
            Command::Press(place) => Ok(press_at(list, place)),
            Command::TakeBack => {
                ensure(1 <= s.recorded, Refusal::NothingRecorded)?;
                Ok(opposite(s.newest()))
            }
        }
    }

    // What the command leaves of a session once its edit is made.
    fn change(self, e: Edit, count: Cells, s: &mut Session)
        ensures { s.new ≡ changed self e count.0 s.old }
    {
        match self {
            Command::Bulge(_, _) | Command::Press(_) => s.add(e, count),
            Command::TakeBack => s.remove(count),
        }
    }
}

// How many cells the list has after an edit.
fn cells_after(cells: usize, e: Edit) -> usize
    requires { cells ≤ 16384 }
    ensures { result ≡ of_kind e.kind (cells + 2) (cells - 2) }
{
    match e.kind {
        Kind::Bulge => cells + 2,
        Kind::Press => cells.saturating_sub(2),
    }
}

// 22, then 5, of an edit of the list of so many cells in front of a buffer.
fn check_edit(p: Panel, e: Edit, cells: usize, list: &[u8]) -> Result<(), Refusal>
    requires { (2 * cells ≤ length list.now) × (cells ≤ 16384) }
    ensures { result ≡ edit_test p e (front cells list.now) (length list.now) }
{
    ensure(can_edit(p, &list[..2 * cells], e), Refusal::NoSuchEdit)?;
    let enough = 2 * cells_after(cells, e) <= list.len();
    ensure(enough, Refusal::ShortBuffer)
}

// The edit of a list that Judge accepts, behind 22 and 5.
fn edit_judged(
    s: &mut Session,
    c: Command,
    e: Edit,
    p: Panel,
    cells: usize,
    list: &mut [u8],
) -> Result<Cells, Refusal>
    requires held { (2 * cells ≤ length list.old) × (cells ≤ 16384) }
    requires good { good_sides p ≡ true }
    ensures { EditLeaves (edit_test p e (front cells list.old) (length list.old))
        c e (front cells list.old) s.old list.old s.new list.new result }
{
    check_edit(p, e, cells, list)?;
    make(list, cells, e);
    let count = Cells(cells_after(cells, e) as u32);
    c.change(e, count, s);
    Ok(count)
}

// Edits the drawing in the caller's hands.
pub fn edit_drawing(
    s: &mut Session,
    c: Command,
    o: Order,
    list: &mut [u8],
    scratch: &mut [u8],
) -> Result<Cells, Refusal>
    ensures { Edits o.panel o.entry o.exit c s.old list.old scratch.old
        s.new list.new scratch.new result }
{
    let cells = s.list_cells(list.len());
    judge(o, &list[..2 * cells], scratch)?;
    let e = c.meant(s, &list[..2 * cells])?;
    edit_judged(s, c, e, o.panel, cells, list)
}

// The same for a caller that has the session by value: it is lent, and handed back.
pub fn edit_lent(s: Session, c: Command, o: Order, list: &mut [u8], scratch: &mut [u8]) -> Edited
    ensures { Edits o.panel o.entry o.exit c s list.old scratch.old
        result.session list.new scratch.new result.answer }
{
    let mut session = s;
    let answer = edit_drawing(&mut session, c, o, list, scratch);
    Edited { session, answer }
}
