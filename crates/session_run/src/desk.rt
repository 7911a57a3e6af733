// The call with parts of buffers, and lines of text that say what it is called with.
use detour::{Edit, Kind, Side};
use grid::{Cell, Cells, CellsValues, Order, panel_of};
use session::{Command, Edited, Session, edit_lent, new_session};
use std::io;
use trial::PITCH;
use trial::cells::{cell_at, count, put};
use trial::print::{row, text};

// The buffers of a line: room for ten cells, and for the marks of 258.
const LIST: usize = 20;

const SCRATCH: usize = 258;

// What a letter from a to r stands for as a number, or the sign 64 before it; q is one whose double is 6 in 32
// bits, r the largest.
const VALUES: [u32; 19] = [
    0, 10, 11, 12, 13, 15, 31, 32, 33, 127, 128, 129, 255, 999, 1000, 10000, 10001, 2147483651,
    4294967295,
];

// A session with its list, the order, and how many bytes of the buffers for the list and for scratch are lent.
#[derive(Clone, Copy)]
struct Desk {
    session: Session,
    order: Order,
    bytes: u32,
    room: u32,
    list: [u8; LIST],
}

// ---- the call

pub fn called(
    s: Session,
    c: Command,
    o: Order,
    bytes: u32,
    room: u32,
    list: &mut [u8],
    scratch: &mut [u8],
) -> Edited {
    let n = list.len().min(bytes as usize);
    let k = scratch.len().min(room as usize);
    edit_lent(s, c, o, &mut list[..n], &mut scratch[..k])
}

// ---- a line of the output

// The newest recorded edit, where one of those that are kept is.
fn newest_of(s: &Session) -> Option<Edit> {
    let k = (s.recorded as usize).checked_sub(1)?;
    s.edits.get(k).copied()
}

// The line of a call, behind its pairs.
fn print_call(
    rt: &impl Print,
    done: &Edited,
    altered: bool,
    list: [u8; LIST],
    scratch: &[u8],
) -> io::Result<()> {
    let v = CellsValues::from(done.answer);
    let s = done.session;
    let (place, bulge, left) = newest_of(&s).map_or((0, false, false), |e| {
        (e.place, e.kind == Kind::Bulge, e.side == Side::Left)
    });
    text(rt, b"= ")?;
    row(
        rt,
        &[
            v.refusal,
            v.cells.0,
            s.count.0,
            s.recorded,
            place,
            u32::from(bulge),
            u32::from(left),
            count(scratch, 0),
            count(scratch, 255),
        ],
        b": ",
    )?;
    row(rt, &list.map(u32::from), b"\n")?;
    if altered {
        text(rt, b"the session is altered\n")?;
    }
    Ok(())
}

// ---- a line of the input

impl Desk {
    // A new session, before its first cell. All bytes of the list's buffer are 255.
    fn fresh(width: u32, height: u32) -> Desk {
        let none = Cell { x: 0, y: 0 };
        Desk {
            session: new_session(Cells(0)),
            order: Order {
                panel: panel_of(width, height, PITCH),
                entry: none,
                exit: none,
            },
            bytes: 20,
            room: 258,
            list: [255; LIST],
        }
    }

    // Sets a number by its letter: width, height and pitch; the entry, i and j; the exit, x and y; the session's
    // count, and how many edits are recorded; and how many bytes are lent for the list (n) and for scratch.
    fn set(&mut self, letter: u8, k: u32) {
        match letter {
            b'w' => self.order.panel.width = k,
            b'h' => self.order.panel.height = k,
            b'p' => self.order.panel.pitch = k,
            b'i' => self.order.entry.x = k,
            b'j' => self.order.entry.y = k,
            b'x' => self.order.exit.x = k,
            b'y' => self.order.exit.y = k,
            b'c' => self.session.count = Cells(k),
            b'r' => self.session.recorded = k,
            b'n' => self.bytes = k,
            b's' => self.room = k,
            _ => {}
        }
    }

    // A cell more in the list: it is the exit, and the first the entry.
    fn add_cell(&mut self, c: Cell) {
        let k = self.session.count.0;
        put(&mut self.list, k, c);
        self.session.count = Cells(k.wrapping_add(1));
        self.order.entry = cell_at(&self.list, 0);
        self.order.exit = c;
    }

    // An edit more on the record.
    fn add_edit(&mut self, e: Edit) {
        let k = self.session.recorded;
        self.session.edits[(k % 32) as usize] = e;
        self.session.recorded = k.wrapping_add(1);
    }

    // Calls, and prints a line.
    fn try_command(&mut self, rt: &impl Print, c: Command) -> io::Result<()> {
        let mut scratch = [255u8; SCRATCH];
        let before = self.session;
        let done = called(
            before,
            c,
            self.order,
            self.bytes,
            self.room,
            &mut self.list,
            &mut scratch,
        );
        self.session = done.session;
        let altered = done.answer.is_err() && done.session != before;
        print_call(rt, &done, altered, self.list, &scratch)
    }
}

// What a character stands for: a digit for its number, a letter or a sign for one of the values.
fn value_of(b: u8) -> u32 {
    match b {
        b'0'..=b'9' => u32::from(b - b'0'),
        _ => VALUES[(b % 32 % 19) as usize],
    }
}

// An edit put on the record by hand: B and C are bulges, D and E presses, B and D left.
fn edit_of(letter: u8, place: u32) -> Edit {
    Edit {
        place,
        kind: if letter < b'D' {
            Kind::Bulge
        } else {
            Kind::Press
        },
        side: if letter % 2 == 0 {
            Side::Left
        } else {
            Side::Right
        },
    }
}

pub fn command_of(letter: u8, k: u32) -> Command {
    match letter {
        b'L' => Command::Bulge(k, Side::Left),
        b'R' => Command::Bulge(k, Side::Right),
        b'P' => Command::Press(k),
        _ => Command::TakeBack,
    }
}

// Prints a pair, and does what it says.
fn read_pair(rt: &impl Print, d: &mut Desk, a: u8, b: u8) -> io::Result<()> {
    let k = value_of(b);
    text(rt, &[a, b, b' '])?;
    match a {
        b'a'.. => d.set(a, k),
        b'L'.. => d.try_command(rt, command_of(a, k))?,
        b'A'.. => d.add_edit(edit_of(a, k)),
        _ => d.add_cell(Cell {
            x: value_of(a),
            y: k,
        }),
    }
    Ok(())
}

// Pairs of characters with one between: x and y of a cell; L or R and a place, a bulge; P and a place, a press;
// T0, taking back; or what is set by hand. Each line starts from a new session.
pub fn try_lines(
    rt: &impl Print,
    title: &[u8],
    width: u32,
    height: u32,
    lines: &[u8],
) -> io::Result<()> {
    text(rt, title)?;
    let mut d = Desk::fresh(width, height);
    for &[a, b, end] in lines.as_chunks::<3>().0 {
        read_pair(rt, &mut d, a, b)?;
        if end == b'\n' {
            d = Desk::fresh(width, height);
        }
    }
    Ok(())
}
