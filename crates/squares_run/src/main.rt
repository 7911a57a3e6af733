// Counts corners and squares of lists of every kind, some that are no tracks and some that are no whole
// cells. Each line says what the list is, how many corners it has, and its squares in hundredths.
#![tactic(auto)]

ghost use Rattle.std.specs.Prelude.{◌≤◌, length};

use squares::{corners_of, squares_of};
use std::io;
use trial::cells::snake;

fn show(rt: &impl Print, name: &str, list: &[u8]) -> io::Result<()>
    requires { length list.now ≤ 32768 }
{
    println!(rt; "{name}: {} {}", corners_of(list), squares_of(list))
}

fn tracks(rt: &impl Print) -> io::Result<()> {
    show(rt, "one cell", b"\x05\x05")?;
    show(rt, "two cells", b"\x01\x01\x01\x02")?;
    show(rt, "three in a row", b"\x02\x01\x03\x01\x04\x01")?;
    show(rt, "three in a column", b"\x01\x04\x01\x03\x01\x02")?;
    show(rt, "right and down", b"\x01\x01\x02\x01\x02\x02")?;
    show(rt, "up and left", b"\x02\x02\x02\x01\x01\x01")?;
    show(
        rt,
        "2 by 2 from (1,1) to (2,1)",
        b"\x01\x01\x01\x02\x02\x02\x02\x01",
    )?;
    show(
        rt,
        "2 by 2 from (1,1) to (1,2)",
        b"\x01\x01\x02\x01\x02\x02\x01\x02",
    )?;
    show(
        rt,
        "a corner, a straight cell, a corner",
        b"\x01\x01\x02\x01\x02\x02\x02\x03\x01\x03",
    )?;
    show(
        rt,
        "corners at both ends",
        b"\x01\x01\x01\x02\x02\x02\x03\x02\x03\x01",
    )?;
    show(
        rt,
        "a stair",
        b"\x01\x01\x02\x01\x02\x02\x03\x02\x03\x03\x04\x03",
    )
}

// What is no track: cells are left out, or stand twice. The ends of the bytes' range are cells like others.
fn others(rt: &impl Print) -> io::Result<()> {
    show(
        rt,
        "twice around 2 by 2",
        b"\x01\x01\x01\x02\x02\x02\x02\x01\x01\x01\x01\x02\x02\x02\x02\x01",
    )?;
    show(rt, "there and back", b"\x01\x01\x02\x01\x01\x01")?;
    show(rt, "the same cell thrice", b"\x03\x03\x03\x03\x03\x03")?;
    show(rt, "ends apart in x and y", b"\x01\x01\x09\x07")?;
    show(
        rt,
        "a jump and back to the row",
        b"\x01\x01\x05\x05\x09\x01",
    )?;
    show(rt, "jumps off row and column", b"\x01\x01\x09\x01\x05\x02")?;
    show(rt, "0 and 255", b"\x00\x00\x00\xff\xff\xff\xff\x00")?;
    show(rt, "only x is another", b"\x00\x80\x07\x07\xff\x80")?;
    show(rt, "only y is another", b"\x80\x00\x07\x07\x80\xff")
}

// A last byte without its other is no cell.
fn parts(rt: &impl Print) -> io::Result<()> {
    show(rt, "nothing", b"")?;
    show(rt, "a byte", b"\x01")?;
    show(rt, "a cell and a byte", b"\x01\x01\x02")?;
    show(rt, "two cells and a byte", b"\x01\x01\x02\x01\x02")?;
    show(rt, "a corner and a byte", b"\x01\x01\x02\x01\x02\x02\x03")
}

// The first bytes of a list.
fn show_front(rt: &impl Print, name: &str, list: &[u8], bytes: usize) -> io::Result<()>
    requires { length list.now ≤ 32768 }
{
    show(rt, name, &list[..bytes.min(list.len())])
}

// The longest lists: 16,384 cells, and less.
fn large(rt: &impl Print) -> io::Result<()> {
    let mut list = [1u8; 32768];
    show(rt, "16384 times (1,1)", &list)?;
    snake(&mut list);
    show(rt, "128 by 128 row by row", &list)?;
    show_front(rt, "a byte less", &list, 32767)?;
    show_front(rt, "128 by 127 row by row", &list, 32512)
}

fn main(rt: HostRuntime) -> io::Result<()> {
    tracks(&rt)?;
    others(&rt)?;
    parts(&rt)?;
    large(&rt)
}
