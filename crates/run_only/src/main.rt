// Answers a table of inputs, one for each form that document 01 names, as `foil` prints them. The
// answers for the largest panel are told by their first two lines, their length and the sum of their
// bytes.
#![tactic(auto)]

ghost use Rattle.std.specs.Prelude.{◌≤◌, length};

use std::io;

// The place behind the second line feed, or the end.
fn two_lines(text: &[u8]) -> usize
    ensures { result ≤ length text.now }
{
    let mut seen = false;
    for (i, &byte) in text.iter().enumerate() {
        if byte == b'\n' {
            if seen {
                return i + 1;
            }
            seen = true;
        }
    }
    text.len()
}

fn sum_of(text: &[u8]) -> u64 {
    text.iter()
        .fold(0, |sum: u64, &byte| sum.wrapping_add(u64::from(byte)))
}

// The form of an input.
fn name(rt: &impl Print, form: &[u8]) -> io::Result<()> {
    rt.write_all(form)?;
    rt.write_all(b":\n")
}

// An answer in full.
fn show(rt: &impl Print, form: &[u8], input: &[u8]) -> io::Result<()> {
    let mut text = [0u8; 16512];
    let bytes = order::answer(input, &mut text);
    name(rt, form)?;
    rt.write_all(&text[..bytes])
}

// An answer's first two lines, its length and the sum of its bytes.
fn show_large(rt: &impl Print, form: &[u8], input: &[u8]) -> io::Result<()> {
    let mut text = [0u8; 16512];
    let bytes = order::answer(input, &mut text);
    name(rt, form)?;
    rt.write_all(&text[..two_lines(&text[..bytes])])?;
    let sum = sum_of(&text[..bytes]);
    println!(rt; "bytes {bytes}, sum {sum}")
}

fn orders(rt: &impl Print) -> io::Result<()> {
    show(rt, b"the example", b"5 1 2 1 4 1 4000\n")?;
    show(rt, b"one row, end to end", b"5 1 5 1 1 1 4000\n")?;
    show(rt, b"one column", b"1 6 1 5 1 2 4000\n")?;
    show(rt, b"two rows", b"6 2 3 1 4 2 4000\n")?;
    show(rt, b"a tall panel", b"3 4 2 1 2 4 4000\n")?;
    show(rt, b"a wide panel", b"9 4 2 3 7 1 4000\n")?;
    show(rt, b"a square, to the right", b"2 2 1 1 2 1 4000\n")?;
    show(rt, b"a square, down", b"2 2 1 1 1 2 4000\n")?;
    show(rt, b"three by three", b"3 3 1 2 3 2 4000\n")?;
    show(rt, b"entry equals exit", b"1 1 1 1 1 1 4000\n")?;
    show(rt, b"entry equals exit in one row", b"5 1 2 1 2 1 4000\n")?;
    show(
        rt,
        b"entry equals exit, 128 by 128",
        b"128 128 128 128 128 128 10000\n",
    )?;
    show_large(
        rt,
        b"128 by 128, corner to corner",
        b"128 128 1 1 128 128 4000\n",
    )?;
    show_large(
        rt,
        b"128 by 128, along an edge",
        b"128 128 1 1 1 128 4000\n",
    )?;
    show_large(rt, b"128 by 127, inside", b"128 127 77 64 78 64 4000\n")
}

// Within its range the pitch changes nothing of the answer.
fn good_pitches(rt: &impl Print) -> io::Result<()> {
    show(rt, b"the smallest pitch", b"9 4 2 3 7 1 1000\n")?;
    show(rt, b"the largest pitch", b"9 4 2 3 7 1 10000\n")?;
    show_large(
        rt,
        b"128 by 128, pitch of 2 mm",
        b"128 128 1 1 1 128 2000\n",
    )?;
    show_large(
        rt,
        b"128 by 128, pitch of 6 mm",
        b"128 128 1 1 1 128 6000\n",
    )
}

fn bad_pitches(rt: &impl Print) -> io::Result<()> {
    show(rt, b"a pitch of 999", b"9 4 2 3 7 1 999\n")?;
    show(rt, b"a pitch of 10001", b"9 4 2 3 7 1 10001\n")?;
    show(rt, b"a pitch of 0", b"9 4 2 3 7 1 0\n")?;
    show(rt, b"a pitch of 4294967295", b"9 4 2 3 7 1 4294967295\n")?;
    show(rt, b"a bad pitch behind a bad side", b"129 4 2 3 7 1 999\n")?;
    show(rt, b"a bad pitch before a bad entry", b"9 4 10 3 7 1 999\n")?;
    show(rt, b"a bad pitch before a bad exit", b"9 4 2 3 7 0 10001\n")?;
    show(rt, b"a bad pitch before equal cells", b"9 4 2 3 2 3 0\n")
}

fn refusals(rt: &impl Print) -> io::Result<()> {
    show(rt, b"a side of 129", b"129 1 1 1 2 1 4000\n")?;
    show(rt, b"a side of 0", b"5 0 1 1 2 1 4000\n")?;
    show(rt, b"entry off", b"5 5 6 1 2 1 4000\n")?;
    show(rt, b"exit off", b"1 1 1 1 2 1 4000\n")?;
    show(rt, b"all zero", b"0 0 0 0 0 0 0\n")
}

fn lines(rt: &impl Print) -> io::Result<()> {
    show(rt, b"empty input", b"")?;
    show(rt, b"empty line", b"\n")?;
    show(rt, b"no line feed", b"5 1 2 1 4 1 4000")?;
    show(rt, b"cut short", b"5 1 2 1 4 1 \n")?;
    show(rt, b"six numbers", b"5 1 2 1 4 1\n")?;
    show(
        rt,
        b"six numbers, the last a good pitch",
        b"5 1 2 1 4 4000\n",
    )?;
    show(rt, b"eight numbers", b"5 1 2 1 4 1 4000 1\n")?;
    show(rt, b"two lines", b"5 1 2 1 4 1 4000\n5 1 4 1 2 1 4000\n")?;
    show(
        rt,
        b"a first line of another form",
        b"x\n5 1 2 1 4 1 4000\n",
    )?;
    show(rt, b"a first line of six numbers", b"5 1 2 1 4 1\n4000\n")?;
    show(
        rt,
        b"any bytes after the line feed",
        b"5 1 2 1 4 1 4000\n\x00\xff",
    )
}

fn blanks(rt: &impl Print) -> io::Result<()> {
    show(rt, b"carriage return", b"5 1 2 1 4 1 4000\r\n")?;
    show(rt, b"tab", b"5\t1 2 1 4 1 4000\n")?;
    show(rt, b"two blanks", b"5 1 2  1 4 1 4000\n")?;
    show(rt, b"two blanks before the pitch", b"5 1 2 1 4 1  4000\n")?;
    show(rt, b"a blank in front", b" 5 1 2 1 4 1 4000\n")?;
    show(rt, b"a blank behind", b"5 1 2 1 4 1 4000 \n")
}

fn digits(rt: &impl Print) -> io::Result<()> {
    show(rt, b"a plus sign", b"+5 1 2 1 4 1 4000\n")?;
    show(rt, b"a minus sign", b"5 1 2 1 4 1 -4000\n")?;
    show(rt, b"a decimal point", b"5 1 2 1 4 1 4.000\n")?;
    show(rt, b"a leading zero", b"05 1 2 1 4 1 4000\n")?;
    show(rt, b"a leading zero in the pitch", b"5 1 2 1 4 1 04000\n")?;
    show(rt, b"two zeros", b"5 1 2 1 4 1 00\n")?;
    show(rt, b"the byte before the digits", b"5 1 2 1 4 / 4000\n")?;
    show(rt, b"the byte after the digits", b"5 1 2 1 4 1 400:\n")?;
    show(rt, b"a byte of 0", b"5 1 2 1 4 1 4000\x00\n")?;
    show(rt, b"a byte above 127", b"5 1 2 1 4 \xb1 4000\n")
}

fn large_numbers(rt: &impl Print) -> io::Result<()> {
    show(rt, b"4294967294", b"4294967294 1 1 1 2 1 4000\n")?;
    show(rt, b"4294967295", b"4294967295 1 1 1 2 1 4000\n")?;
    show(rt, b"4294967296", b"4294967296 1 1 1 2 1 4000\n")?;
    show(
        rt,
        b"4294967295 in the exit",
        b"5 1 2 1 4 4294967295 4000\n",
    )?;
    show(
        rt,
        b"4294967296 in the exit",
        b"5 1 2 1 4 4294967296 4000\n",
    )?;
    show(rt, b"4294967296 at the end", b"5 1 2 1 4 1 4294967296\n")?;
    // 4000 beyond the largest number.
    show(rt, b"4294971296 at the end", b"5 1 2 1 4 1 4294971296\n")?;
    show(rt, b"9999999999", b"9999999999 1 1 1 2 1 4000\n")?;
    show(
        rt,
        b"twenty digits",
        b"18446744073709551617 1 1 1 2 1 4000\n",
    )?;
    show(
        rt,
        b"seven of the largest",
        b"4294967295 4294967295 4294967295 4294967295 4294967295 4294967295 4294967295\n",
    )
}

fn main(rt: HostRuntime) -> io::Result<()> {
    orders(&rt)?;
    good_pitches(&rt)?;
    bad_pitches(&rt)?;
    refusals(&rt)?;
    lines(&rt)?;
    blanks(&rt)?;
    digits(&rt)?;
    large_numbers(&rt)
}
