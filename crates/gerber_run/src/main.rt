// Tries the writer and the reader of a Gerber layer on the cases of standard input, then on the largest lists.
//
// A line of the input with a colon is a case: behind the colon stands what is done, then numbers.
//   layer m n pitch x y ..               a list is written and read back, each with room to spare and little
//   write m n pitch room digits x y ..   a list is written in so many bytes of the buffer and of scratch
//   read m n pitch                       the lines up to the next # are read, into a buffer and into none
//   body m n pitch                       the same behind a good head of pitch 4000
//   every m n pitch x y ..               the layer of a list is read with each of its bytes changed
// Other lines are headings. Of a call four words are printed: the refusal's number (0: none), the bytes or
// the cells, a checksum of what was put, and `kept` if every other byte that was lent is as promised, else
// `FAULT`. Of each kind of change two numbers: the files that are layers, and make the same layer again, and
// those that are taken for anything but a layer or none.
#![tactic(auto)]

ghost use Rattle.std.specs.Prelude.{◌<◌, ◌≤◌, length, IfOk};

use gerber_read::read_layer;
use gerber_write::write_layer;
use grid::{Panel, Refusal, panel_of};
use line_input::read_full;
use std::io;
use trial::cells::{filled, snake};
use trial::print::{row, text};

// What buffers and scratch are filled with before a call.
const FILL: u8 = 170;

// The bytes of scratch of which a part is lent, and what they are after a layer.
const SCRATCH: usize = 24;

const CLEARED: [u8; SCRATCH] =
    *b"\0\0\0\0\0\0\0\0\0\0\xaa\xaa\xaa\xaa\xaa\xaa\xaa\xaa\xaa\xaa\xaa\xaa\xaa\xaa";

// The bytes of a buffer for a layer of a case, and for its list. The lists of changed files are short.
const ROOM: usize = 1000;

const LIST: usize = 300;

const SHORT: usize = 64;

// The head of a layer of pitch 4000.
const HEAD_BYTES: usize = 49;

const HEAD: [u8; HEAD_BYTES] = *b"%FSLAX46Y46*%\n%MOMM*%\n%ADD10C,2.0000*%\nD10*\nG01*\n";

// The words of a case at most.
const WORDS: usize = 72;

// The refusal's number that is printed of a call that was not made.
const NOT_MADE: u32 = 999;

// What came of a call: the bytes or the cells that it gave, or its refusal; none if it was not made.
type Outcome = Option<Result<u32, Refusal>>;

fn number_of(a: Outcome) -> u32 {
    match a {
        None => NOT_MADE,
        Some(Err(r)) => u32::from(r),
        Some(Ok(_)) => 0,
    }
}

// The bytes or the cells; a call that gave none counts as 0.
fn count_of(a: Outcome) -> u32 {
    match a {
        Some(Ok(k)) => k,
        _ => 0,
    }
}

fn show(rt: &impl Print, a: Outcome, sum: u32, kept: bool) -> io::Result<()> {
    text(rt, b" | ")?;
    row(rt, &[number_of(a), count_of(a), sum], b" ")?;
    text(rt, if kept { b"kept" } else { b"FAULT" })
}

// A digit of base 256 more, modulo the largest prime of 32 bits.
fn sum_on(n: u32, b: u8) -> u32 {
    ((256 * u64::from(n) + u64::from(b)) % 4294967291) as u32
}

fn sum(s: &[u8]) -> u32 {
    s.iter().fold(0, |n, &b| sum_on(n, b))
}

// The checksum of the first k bytes.
fn sum_front(s: &[u8], k: usize) -> u32 {
    s.get(..k).map_or(0, sum)
}

// Writes with the first `digits` bytes of scratch and the first `room` of the buffer.
fn write_into(
    p: Panel,
    list: &[u8],
    scratch: &mut [u8],
    digits: usize,
    out: &mut [u8],
    room: usize,
) -> Outcome {
    let scratch = scratch.get_mut(..digits)?;
    let out = out.get_mut(..room)?;
    Some(write_layer(p, list, scratch, out))
}

// Reads the first k bytes of a file into the first `room` bytes of the buffer.
fn read_into(p: Panel, file: &[u8], k: usize, list: &mut [u8], room: usize) -> Outcome {
    let file = file.get(..k)?;
    let list = list.get_mut(..room)?;
    Some(read_layer(p, file, list).map(|cells| cells.0))
}

// Whether scratch and the bytes behind the k written are as promised.
fn stays(scratch: &[u8], out: &[u8], k: usize) -> bool {
    let scratch_stays = if k == 0 {
        filled(scratch, 0, FILL)
    } else {
        scratch == CLEARED.as_slice()
    };
    filled(out, k, FILL) && scratch_stays
}

// Writes so, with all bytes filled before, and prints what came of it. The bytes written.
fn write_in(
    rt: &impl Print,
    p: Panel,
    list: &[u8],
    digits: usize,
    out: &mut [u8],
    room: usize,
) -> io::Result<usize> {
    out.fill(FILL);
    let mut scratch = [FILL; SCRATCH];
    let a = write_into(p, list, &mut scratch, digits, out, room);
    let k = count_of(a) as usize;
    show(rt, a, sum_front(out, k), stays(&scratch, out, k))?;
    Ok(k)
}

// The same of reading. The bytes of the list.
fn read_in(
    rt: &impl Print,
    p: Panel,
    file: &[u8],
    k: usize,
    list: &mut [u8],
    room: usize,
) -> io::Result<usize> {
    list.fill(FILL);
    let a = read_into(p, file, k, list, room);
    let end = 2 * (count_of(a) as usize);
    show(rt, a, sum_front(list, end), filled(list, end, FILL))?;
    Ok(end)
}

// Writes a layer with room to spare; then in a byte too few, with a byte too few of scratch, and in just
// enough of both. The bytes of the layer, which is left in the buffer.
fn write_four(rt: &impl Print, p: Panel, list: &[u8], out: &mut [u8]) -> io::Result<usize> {
    text(rt, b"write")?;
    let room = out.len();
    let k = write_in(rt, p, list, SCRATCH, out, room)?;
    for (digits, room) in [(SCRATCH, k.saturating_sub(1)), (9, k), (10, k)] {
        write_in(rt, p, list, digits, out, room)?;
    }
    text(rt, b"\n")?;
    Ok(k)
}

// Reads the list of a layer of k bytes with room to spare; then into nothing, into a byte too few, and into
// just enough.
fn read_four(rt: &impl Print, p: Panel, file: &[u8], k: usize, list: &mut [u8]) -> io::Result<()> {
    text(rt, b"read")?;
    let room = list.len();
    let end = read_in(rt, p, file, k, list, room)?;
    for room in [0, end.saturating_sub(1), end] {
        read_in(rt, p, file, k, list, room)?;
    }
    text(rt, b"\n")
}

// A list there and back. The bytes of its layer.
fn both_ways(
    rt: &impl Print,
    p: Panel,
    list: &[u8],
    out: &mut [u8],
    back: &mut [u8],
) -> io::Result<usize> {
    let k = write_four(rt, p, list, out)?;
    read_four(rt, p, out, k, back)?;
    Ok(k)
}

fn print_front(rt: &impl Print, s: &[u8], k: usize) -> io::Result<()> {
    text(rt, s.get(..k).unwrap_or(&[]))
}

fn layer_case(rt: &impl Print, p: Panel, list: &[u8]) -> io::Result<()> {
    text(rt, b"\n")?;
    let mut out = [FILL; ROOM];
    let mut back = [FILL; LIST];
    let k = both_ways(rt, p, list, &mut out, &mut back)?;
    print_front(rt, &out, k)
}

fn write_case(
    rt: &impl Print,
    p: Panel,
    list: &[u8],
    digits: usize,
    room: usize,
) -> io::Result<()> {
    let mut out = [FILL; ROOM];
    write_in(rt, p, list, digits, &mut out, room)?;
    text(rt, b"\n")
}

// Reads the first k bytes of a file into a buffer, and into none.
fn read_case(rt: &impl Print, p: Panel, file: &[u8], k: usize) -> io::Result<()> {
    let mut list = [FILL; LIST];
    for room in [LIST, 0] {
        read_in(rt, p, file, k, &mut list, room)?;
    }
    text(rt, b"\n")
}

// Puts a text at a place of a file, if it fits.
fn put(text: &[u8], file: &mut [u8], at: usize) {
    if let Some(behind) = file.get_mut(at..)
        && let Some(place) = behind.get_mut(..text.len())
    {
        place.copy_from_slice(text);
    }
}

// The same of a file that goes on so behind a good head.
fn body_case(rt: &impl Print, p: Panel, body: &[u8]) -> io::Result<()> {
    let mut file = [FILL; ROOM];
    put(&HEAD, &mut file, 0);
    put(body, &mut file, HEAD_BYTES);
    read_case(rt, p, &file, HEAD_BYTES + body.len())
}

// Writes with room enough.
fn write_roomy(p: Panel, list: &[u8], out: &mut [u8]) -> Outcome {
    let mut scratch = [FILL; SCRATCH];
    let room = out.len();
    write_into(p, list, &mut scratch, SCRATCH, out, room)
}

// Whether the layer of the first n bytes of a list is this file.
fn makes(p: Panel, list: &[u8], n: usize, file: &[u8]) -> bool {
    let Some(list) = list.get(..n) else {
        return false;
    };
    let mut out = [FILL; ROOM];
    let k = count_of(write_roomy(p, list, &mut out)) as usize;
    out.get(..k).is_some_and(|layer| layer == file)
}

// What the reader makes of a file: no layer; a list that makes this layer again; or anything else.
#[derive(Clone, Copy, Debug, PartialEq, Eq)]
enum Verdict {
    NoLayer,
    Layer,
    Other,
}

fn verdict_on(p: Panel, file: &[u8]) -> Verdict {
    let mut list = [FILL; SHORT];
    let a = read_into(p, file, file.len(), &mut list, SHORT);
    if number_of(a) == 16 {
        return Verdict::NoLayer;
    }
    if makes(p, &list, 2 * (count_of(a) as usize), file) {
        Verdict::Layer
    } else {
        Verdict::Other
    }
}

// How many files were layers, and how many were taken for anything but a layer or none.
#[derive(Clone, Copy, Debug, PartialEq, Eq)]
struct Tally {
    layers: u32,
    others: u32,
}

fn tallied(t: Tally, v: Verdict) -> Tally {
    match v {
        Verdict::NoLayer => t,
        Verdict::Layer => Tally {
            layers: t.layers.wrapping_add(1),
            ..t
        },
        Verdict::Other => Tally {
            others: t.others.wrapping_add(1),
            ..t
        },
    }
}

// The verdicts on a file with every value at one place, and those before.
fn every_value(p: Panel, other: &mut [u8], i: usize, before: Tally) -> Tally
    requires { i < length other.old }
{
    let mut t = before;
    for v in 0..=u8::MAX {
        other[i] = v;
        t = tallied(t, verdict_on(p, other));
    }
    t
}

// The same at every place, where the byte of another file is left then.
fn every_place(p: Panel, file: &[u8], other: &mut [u8]) -> Tally {
    let mut t = Tally {
        layers: 0,
        others: 0,
    };
    for i in 0..other.len() {
        t = every_value(p, other, i, t);
        if let Some(&b) = file.get(i) {
            other[i] = b;
        }
    }
    t
}

// The same of a part of a buffer, with the two numbers that are printed.
fn verdicts(rt: &impl Print, p: Panel, file: &[u8], part: Option<&mut [u8]>) -> io::Result<()> {
    if let Some(other) = part {
        let t = every_place(p, file, other);
        row(rt, &[t.layers, t.others], b"\n")?;
    }
    Ok(())
}

// Of a file of k bytes, which stands in a buffer from 1 on: every value put in at every place, with which each
// byte is doubled too; in place of every byte; in place of every two, with which each byte is removed too. Each
// leaves the file where the next one takes it.
fn three_verdicts(
    rt: &impl Print,
    p: Panel,
    file: &[u8],
    k: usize,
    other: &mut [u8],
) -> io::Result<()> {
    if k < other.len() {
        verdicts(rt, p, file, other.get_mut(..k + 1))?;
        verdicts(rt, p, file, other.get_mut(..k))?;
        verdicts(rt, p, file, other.get_mut(1..k))?;
    }
    Ok(())
}

fn every_case(rt: &impl Print, p: Panel, list: &[u8]) -> io::Result<()> {
    text(rt, b"\n")?;
    let mut file = [FILL; ROOM];
    let k = count_of(write_roomy(p, list, &mut file)) as usize;
    let mut other = [FILL; ROOM + 1];
    put(&file, &mut other, 1);
    three_verdicts(rt, p, &file, k, &mut other)
}

// A decimal digit more. The low half of its byte is its value.
fn digit_on(n: u32, b: u8) -> u32 {
    n.wrapping_mul(10).wrapping_add(u32::from(b % 16))
}

// A byte more of word j: the word that the next byte is of.
fn word_on(b: u8, words: &mut [u32], j: usize) -> usize {
    if j < words.len() {
        if b <= b' ' {
            return j + 1;
        }
        words[j] = digit_on(words[j], b);
    }
    j
}

// The words of a line as numbers. A blank or the line feed ends each.
fn words_in<'a>(line: &[u8], room: &'a mut [u32]) -> &'a [u32] {
    let mut j = 0;
    for &b in line {
        j = word_on(b, room, j);
    }
    room.get(..j).unwrap_or(&[])
}

// Word i, or 0 past the end.
fn word_at(words: &[u32], i: usize) -> u32 {
    words.get(i).copied().unwrap_or(0)
}

// The words as bytes.
fn bytes_in<'a>(words: &[u32], room: &'a mut [u8]) -> &'a [u8] {
    for (byte, word) in room.iter_mut().zip(words) {
        *byte = (*word % 256) as u8;
    }
    room.get(..words.len()).unwrap_or(&[])
}

// The colon and what is done are words too: the panel is the words 2, 3 and 4.
fn panel_in(words: &[u32]) -> Panel {
    panel_of(word_at(words, 2), word_at(words, 3), word_at(words, 4))
}

// What a case does.
#[derive(Clone, Copy, Debug, PartialEq, Eq)]
enum Kind {
    Layer,
    Write,
    Read,
    Body,
    Every,
}

// What it does begins with the third byte from its colon on. A heading has no colon.
fn kind_in(line: &[u8]) -> Option<Kind> {
    match line.get(2)? {
        0 => None,
        b'l' => Some(Kind::Layer),
        b'r' => Some(Kind::Read),
        b'b' => Some(Kind::Body),
        b'e' => Some(Kind::Every),
        _ => Some(Kind::Write),
    }
}

// A case with a list.
fn list_case(rt: &impl Print, kind: Kind, words: &[u32], list: &[u8]) -> io::Result<()> {
    let p = panel_in(words);
    if list.len() < 7 {
        return Ok(());
    }
    match kind {
        Kind::Layer => layer_case(rt, p, &list[5..]),
        Kind::Every => every_case(rt, p, &list[5..]),
        _ => write_case(
            rt,
            p,
            &list[7..],
            word_at(words, 6) as usize,
            word_at(words, 5) as usize,
        ),
    }
}

// The place of the first such byte, or the end of the bytes if there is none.
fn find(s: &[u8], b: u8) -> usize
    ensures { result ≤ length s.now }
{
    s.iter().position(|&byte| byte == b).unwrap_or(s.len())
}

// A case whose file is the lines up to the next #. What is behind the line of that.
fn file_case<'a>(
    rt: &impl Print,
    kind: Kind,
    words: &[u32],
    input: &'a [u8],
) -> io::Result<&'a [u8]>
    ensures { IfOk result (λ rest. length rest.now ≤ length input.now) }
{
    let p = panel_in(words);
    let stop = find(input, b'#');
    let file = &input[..stop];
    if kind == Kind::Body {
        body_case(rt, p, file)?;
    } else {
        read_case(rt, p, file, stop)?;
    }
    Ok(input.get(stop + 2..).unwrap_or(&[]))
}

// The case of a line. What is left of the input behind it.
fn one_case<'a>(rt: &impl Print, kind: Kind, line: &[u8], input: &'a [u8]) -> io::Result<&'a [u8]>
    ensures { IfOk result (λ rest. length rest.now ≤ length input.now) }
{
    let mut numbers = [0u32; WORDS];
    let words = words_in(line, &mut numbers);
    match kind {
        Kind::Read | Kind::Body => file_case(rt, kind, words, input),
        _ => {
            let mut bytes = [0u8; WORDS];
            list_case(rt, kind, words, bytes_in(words, &mut bytes))?;
            Ok(input)
        }
    }
}

// The line at the front of the input. What is left behind it.
fn one_line<'a>(rt: &impl Print, input: &'a [u8]) -> io::Result<&'a [u8]>
    requires { 0 < length input.now }
    ensures { IfOk result (λ rest. length rest.now < length input.now) }
{
    let end = find(input, b'\n');
    if end == input.len() {
        return Ok(&[]);
    }
    let line = &input[..end];
    let rest = &input[end + 1..];
    text(rt, line)?;
    let colon = find(line, b':');
    match kind_in(&line[colon..]) {
        Some(kind) => one_case(rt, kind, &input[colon..end + 1], rest),
        None => {
            text(rt, b"\n")?;
            Ok(rest)
        }
    }
}

fn all_lines(rt: &impl Print, input: &[u8]) -> io::Result<()> {
    let mut rest = input;
    while !rest.is_empty() {
        rest = one_line(rt, rest)?;
    }
    Ok(())
}

// Round and round the four cells in the corner whose numbers have ten digits.
fn round(list: &mut [u8]) {
    let corner: [u8; 8] = [127, 1, 128, 1, 128, 2, 127, 2];
    for (i, byte) in list.iter_mut().enumerate() {
        *byte = corner[i % 8];
    }
}

fn large_case(rt: &impl Print, list: &[u8]) -> io::Result<()> {
    let mut out = [FILL; 442500];
    let mut back = [FILL; 32800];
    both_ways(rt, panel_of(128, 128, 10000), list, &mut out, &mut back)?;
    Ok(())
}

// The longest lists, with the fewest lines and with the most, and one that is a cell longer.
fn largest(rt: &impl Print) -> io::Result<()> {
    let mut list = [0u8; 32768];
    text(rt, b"128 by 128, row by row\n")?;
    snake(&mut list);
    large_case(rt, &list)?;
    text(rt, b"128 by 128, a turn at every cell\n")?;
    round(&mut list);
    large_case(rt, &list)?;
    let mut longer = [0u8; 32770];
    text(rt, b"128 by 128, a cell too many\n")?;
    round(&mut longer);
    large_case(rt, &longer)
}

fn main(rt: HostRuntime) -> io::Result<()> {
    let mut input = [0u8; 32768];
    let n = read_full(&mut rt.stdin(), &mut input)?;
    all_lines(&rt, &input[..n])?;
    largest(&rt)
}
