// Bytes and numbers to standard output. A program hands on the handle that its `main` was given, and ends with
// the error where one of them can't be written.
use crate::cells::Tally;
use std::io;

pub fn text(rt: &impl Print, s: &[u8]) -> io::Result<()> {
    rt.write_all(s)
}

// A number behind its name.
pub fn named(rt: &impl Print, name: &[u8], k: u32) -> io::Result<()> {
    text(rt, name)?;
    print!(rt; "{k}")
}

// Numbers with a blank between, and what ends them.
pub fn row(rt: &impl Print, numbers: &[u32], end: &[u8]) -> io::Result<()> {
    for (i, k) in numbers.iter().enumerate() {
        if 0 < i {
            text(rt, b" ")?;
        }
        print!(rt; "{k}")?;
    }
    text(rt, end)
}

pub fn tally(rt: &impl Print, t: Tally) -> io::Result<()> {
    named(rt, b"given ", t.given)?;
    named(rt, b", none ", t.none)?;
    named(rt, b", wrong ", t.wrong)?;
    text(rt, b"\n")
}
