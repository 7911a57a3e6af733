// Edits made up by a fixed sequence, on small panels, beside the plain way.
use crate::desk::{called, command_of};
use crate::plain::{Drawing, MOST, Plain};
use detour::Side;
use grid::{Cell, Cells, Order, area_of, panel_of};
use judge::judge;
use session::{Command, Session, new_session};
use std::io;
use trial::PITCH;
use trial::cells::{cell_at, count, put};
use trial::numbers::{below, made_up, pick};
use trial::print::{row, text};

// How many runs there are, of how many calls.
const RUNS: u32 = 16;

const CALLS: u32 = 200;

// Room for 32 cells, and for the marks of as many.
const LIST: usize = 2 * MOST;

const SCRATCH: usize = 32;

// What a call did that is as it must be; or that it differs from the plain way, or is refused by another number.
#[derive(Clone, Copy, Debug, PartialEq, Eq)]
enum Outcome {
    BulgedLeft,
    BulgedRight,
    Pressed,
    TakenBack,
    NoSuchEdit,
    NothingRecorded,
    ShortBuffer,
    Different,
}

// A session with its list, and the plain way beside it.
#[derive(Drop)]
struct Both {
    order: Order,
    session: Session,
    list: [u8; LIST],
    plain: Plain,
}

// ---- what is called

// The first place from one on, round the list, where the edit can be made; that one where it can be made nowhere.
fn fitting(o: Order, d: &Drawing, letter: u8, place: u32) -> u32 {
    let n = d.count.wrapping_add(2);
    for i in 0..n {
        let k = below(n, place.wrapping_add(i));
        if d.edited(o.panel, command_of(letter, k)).is_some() {
            return k;
        }
    }
    place
}

// Three of four are at a place that fits, if there is one.
fn place_of(a: u32, o: Order, d: &Drawing, letter: u8) -> u32 {
    let place = below(d.count.wrapping_add(2), a / 16);
    if a / 8192 % 4 == 0 {
        return place;
    }
    fitting(o, d, letter, place)
}

// Mostly edits, and in the last 50 calls mostly takings back.
fn letter_of(a: u32, k: u32) -> u8 {
    let letters = if k / 150 % 2 == 0 {
        b"TLRPLRPLRPLRPLRP"
    } else {
        b"TTTTTTTTTTTTTLRP"
    };
    letters[(a % 16) as usize]
}

// ---- the comparison

// Whether the list, with the zeros behind it, is the drawing's.
fn is_list(d: &Drawing, list: &[u8]) -> bool {
    (0..32)
        .zip(d.cells.iter())
        .all(|(i, &c)| cell_at(list, i) == c)
}

// Whether Judge takes the session's list, and counts its cells.
fn is_judged(o: Order, s: &Session, list: &[u8]) -> bool {
    let mut scratch = [0u8; SCRATCH];
    let n = list.len().min(2 * (s.count.0 as usize));
    judge(o, &list[..n], &mut scratch) == Ok(s.count)
}

// Whether the count is the drawing's, and as many edits are recorded as may be taken back. What the edits are shows
// when they are taken back.
fn is_session(p: &Plain, s: &Session) -> bool {
    s.count.0 == p.drawing().count && s.recorded == p.kept
}

// What a call did that is as it must be.
fn made_of(c: Command, answer: Result<Cells, u32>) -> Outcome {
    match (answer, c) {
        (Ok(_), Command::Bulge(_, Side::Left)) => Outcome::BulgedLeft,
        (Ok(_), Command::Bulge(_, Side::Right)) => Outcome::BulgedRight,
        (Ok(_), Command::Press(_)) => Outcome::Pressed,
        (Ok(_), Command::TakeBack) => Outcome::TakenBack,
        (Err(22), _) => Outcome::NoSuchEdit,
        (Err(23), _) => Outcome::NothingRecorded,
        (Err(5), _) => Outcome::ShortBuffer,
        (Err(_), _) => Outcome::Different,
    }
}

// ---- the runs

// The call beside the plain way's answer.
fn try_beside(r: &mut Both, c: Command) -> Outcome {
    let o = r.order;
    let must = r.plain.answer(o.panel, c);
    let room = r.plain.room;
    let mut scratch = [255u8; SCRATCH];
    let done = called(
        r.session,
        c,
        o,
        room.wrapping_add(room),
        32,
        &mut r.list,
        &mut scratch,
    );
    r.session = done.session;
    let as_it_must_be = done.answer.map_err(|r| u32::from(r)) == must
        && is_session(&r.plain, &r.session)
        && is_list(r.plain.drawing(), &r.list)
        && is_judged(o, &r.session, &r.list)
        && count(&scratch, 0) as usize == area_of(o.panel);
    if as_it_must_be {
        made_of(c, must)
    } else {
        Outcome::Different
    }
}

fn try_call(code: u32, k: u32, r: &mut Both) -> Outcome {
    let a = made_up(code, k);
    let letter = letter_of(a, k);
    let place = place_of(a, r.order, r.plain.drawing(), letter);
    try_beside(r, command_of(letter, place))
}

// A session of a step, its buffer lent with room for 6 cells or more.
fn started(code: u32, o: Order) -> Both {
    let mut list = [0u8; LIST];
    put(&mut list, 0, o.entry);
    put(&mut list, 1, o.exit);
    Both {
        order: o,
        session: new_session(Cells(2)),
        list,
        plain: Plain::start(o, code % 16 + 6),
    }
}

// A panel, and a step on it to the right or down.
fn order_of(code: u32) -> Order {
    let across = pick(code, 200, 4);
    let down = pick(code, 201, 5);
    let right = pick(code, 204, 2);
    let x = pick(code, 202, across.wrapping_add(1)).wrapping_add(1);
    let y = pick(code, 203, down.wrapping_add(1)).wrapping_add(1);
    Order {
        panel: panel_of(across.wrapping_add(2), down.wrapping_add(2), PITCH),
        entry: Cell { x, y },
        exit: Cell {
            x: x.wrapping_add(right),
            y: y.wrapping_add(right ^ 1),
        },
    }
}

pub fn run(rt: &impl Print) -> io::Result<()> {
    let mut tally = [0u32; 8];
    for code in 0..RUNS {
        let mut r = started(code, order_of(code));
        for k in 0..CALLS {
            let i = try_call(code, k, &mut r) as usize;
            tally[i] = tally[i].wrapping_add(1);
        }
    }
    text(
        rt,
        b"made up: bulges left and right, presses, takings back; refused by 22, 23, 5; different\n",
    )?;
    row(rt, &tally, b"\n")
}
