// Tries Write, Read and Letters. A line `write` gives the refusal's number (0: none) and the bytes written; a line
// `read` the number, the panel (sides and pitch), the cells and the record's length; a line `letters` what Letters
// hands back; a line `bytes` a buffer after a call.
#![tactic(auto)]

ghost use Rattle.std.specs.Prelude.{◌≤◌, ◌<◌, length};

use grid::{Panel, panel_of};
use std::io;
use trial::PITCH;
use trial::cells::snake;
use trial::print::{named, row, text};

// The largest number of 32 bits.
const MAX: u32 = 4294967295;

fn show_bytes(rt: &impl Print, s: &[u8]) -> io::Result<()> {
    text(rt, b"bytes")?;
    for &byte in s {
        named(rt, b" ", u32::from(byte))?;
    }
    text(rt, b"\n")
}

fn show_write(rt: &impl Print, p: Panel, list: &[u8], out: &mut [u8]) -> io::Result<()> {
    text(rt, b"write ")?;
    match record::write(p, list, out) {
        Err(r) => row(rt, &[u32::from(r), 0], b"\n"),
        Ok(bytes) => row(rt, &[0, bytes], b"\n"),
    }
}

fn show_read(rt: &impl Print, file: &[u8], list: &mut [u8]) -> io::Result<()> {
    text(rt, b"read ")?;
    match record::read(file, list) {
        Err(r) => row(rt, &[u32::from(r), 0, 0, 0, 0, 0], b"\n"),
        Ok(found) => {
            let p = found.panel;
            row(
                rt,
                &[0, p.width, p.height, p.pitch, found.cells.0, found.bytes],
                b"\n",
            )
        }
    }
}

// The number that Read gives, 0 where nothing is refused.
fn read_number(file: &[u8], list: &mut [u8]) -> u32 {
    record::read(file, list).map_or_else(u32::from, |_| 0)
}

fn show_letters(rt: &impl Print, file: &[u8]) -> io::Result<()> {
    text(rt, b"letters ")?;
    text(rt, record::letters(file))?;
    text(rt, b"\n")
}

// A record of the list, its letters, and the list again; the bytes behind both stay as they were.
fn there_and_back(rt: &impl Print, p: Panel, list: &[u8]) -> io::Result<()> {
    let mut out = [170u8; 20];
    show_write(rt, p, list, &mut out)?;
    show_bytes(rt, &out)?;
    show_letters(rt, &out)?;
    let mut back = [85u8; 20];
    show_read(rt, &out, &mut back)?;
    show_bytes(rt, &back)
}

fn round_trips(rt: &impl Print) -> io::Result<()> {
    text(rt, b"round trips\n")?;
    // The pitch is the bytes 15 and 160.
    there_and_back(rt, panel_of(5, 1, 0x0FA0), &[2, 1, 3, 1, 4, 1])?;
    there_and_back(
        rt,
        panel_of(3, 3, PITCH),
        &[3, 3, 3, 2, 3, 1, 2, 1, 2, 2, 2, 3, 1, 3, 1, 2, 1, 1],
    )?;
    // A list may revisit cells.
    there_and_back(rt, panel_of(2, 2, PITCH), &[1, 1, 1, 2, 1, 1, 2, 1])?;
    // The smallest pitch, 3 and 232, and the largest, 39 and 16.
    there_and_back(rt, panel_of(1, 2, 0x03E8), &[1, 2, 1, 1])?;
    there_and_back(rt, panel_of(2, 1, 0x2710), &[2, 1, 1, 1])?;
    // One cell: no step, and no letter.
    there_and_back(rt, panel_of(1, 1, PITCH), &[1, 1])?;
    there_and_back(rt, panel_of(2, 2, PITCH), &[2, 1])?;
    there_and_back(rt, panel_of(128, 128, 0x2710), &[128, 127])
}

// A list into a filled buffer of 12 bytes: one that is not written leaves it as it was.
fn try_write(rt: &impl Print, p: Panel, list: &[u8]) -> io::Result<()> {
    let mut out = [170u8; 12];
    show_write(rt, p, list, &mut out)?;
    show_bytes(rt, &out)
}

// A list that is not written, for a panel of the usual pitch.
fn not_written(rt: &impl Print, m: u32, n: u32, list: &[u8]) -> io::Result<()> {
    try_write(rt, panel_of(m, n, PITCH), list)
}

fn bad_sides(rt: &impl Print) -> io::Result<()> {
    not_written(rt, 0, 5, &[1, 1, 1, 2])?;
    not_written(rt, 5, 129, &[1, 1, 1, 2])?;
    not_written(rt, 5, MAX, &[1, 1, 1, 2])
}

fn bad_lengths(rt: &impl Print) -> io::Result<()> {
    not_written(rt, 2, 2, &[])?;
    not_written(rt, 2, 2, &[1, 1, 1])
}

fn bad_cells(rt: &impl Print) -> io::Result<()> {
    not_written(rt, 2, 2, &[1, 1, 1, 3])?;
    not_written(rt, 2, 2, &[0, 1, 1, 1])
}

fn bad_steps(rt: &impl Print) -> io::Result<()> {
    not_written(rt, 3, 2, &[1, 1, 3, 1])?;
    not_written(rt, 3, 2, &[1, 1, 2, 2])?;
    not_written(rt, 3, 2, &[1, 1, 1, 1])
}

fn bad_counts(rt: &impl Print) -> io::Result<()> {
    not_written(rt, 2, 1, &[1, 1, 2, 1, 1, 1])?;
    not_written(rt, 1, 2, &[1, 2, 1, 1, 1, 2, 1, 1])
}

// One cell: off the panel, and in a buffer of 10 bytes, a byte too short, and empty.
fn one_cell(rt: &impl Print) -> io::Result<()> {
    not_written(rt, 2, 2, &[3, 1])?;
    let p = panel_of(2, 2, PITCH);
    let mut exact = [170u8; 10];
    show_write(rt, p, &[1, 2], &mut exact)?;
    show_bytes(rt, &exact)?;
    let mut short = [170u8; 9];
    show_write(rt, p, &[1, 2], &mut short)?;
    show_bytes(rt, &short)?;
    let mut none = [170u8; 0];
    show_write(rt, p, &[1, 2], &mut none)
}

fn write_refusals(rt: &impl Print) -> io::Result<()> {
    text(rt, b"refusals of Write\n")?;
    bad_sides(rt)?;
    bad_lengths(rt)?;
    bad_cells(rt)?;
    bad_steps(rt)?;
    bad_counts(rt)?;
    one_cell(rt)?;
    // A buffer a byte too short.
    not_written(rt, 4, 1, &[1, 1, 2, 1, 3, 1, 4, 1])?;
    // Two faults: the one tested first.
    not_written(rt, 2, 2, &[1, 1, 2, 2, 3, 3])
}

// A list of three cells on a panel of this pitch.
fn write_pitch(rt: &impl Print, pitch: u32) -> io::Result<()> {
    try_write(rt, panel_of(5, 1, pitch), &[2, 1, 3, 1, 4, 1])
}

// Pitches at the ends of their range and outside it; the last has the two low bytes of 4000.
fn write_pitches(rt: &impl Print) -> io::Result<()> {
    text(rt, b"pitches in Write\n")?;
    write_pitch(rt, 999)?;
    write_pitch(rt, 1000)?;
    write_pitch(rt, 10000)?;
    write_pitch(rt, 10001)?;
    write_pitch(rt, 0)?;
    write_pitch(rt, MAX)?;
    write_pitch(rt, 69536)
}

// A bad pitch behind a bad side, then before each fault that is tested after it: 6, 7, 8, 15 and 5.
fn write_pitch_and_more(rt: &impl Print) -> io::Result<()> {
    try_write(rt, panel_of(0, 5, 999), &[1, 1, 1, 2])?;
    try_write(rt, panel_of(5, 129, MAX), &[])?;
    try_write(rt, panel_of(2, 2, 999), &[])?;
    try_write(rt, panel_of(2, 2, 10001), &[1, 1, 1, 3])?;
    try_write(rt, panel_of(3, 2, 0), &[1, 1, 3, 1])?;
    try_write(rt, panel_of(2, 1, MAX), &[1, 1, 2, 1, 1, 1])?;
    try_write(rt, panel_of(4, 1, 999), &[1, 1, 2, 1, 3, 1, 4, 1])
}

// What Read and Letters say of a file, and the list's buffer after.
fn try_file(rt: &impl Print, file: &[u8]) -> io::Result<()> {
    let mut list = [85u8; 8];
    show_read(rt, file, &mut list)?;
    show_letters(rt, file)?;
    show_bytes(rt, &list)
}

// The third file is a record as it was without a pitch, the fourth a record with the mark of those.
fn bad_marks(rt: &impl Print) -> io::Result<()> {
    try_file(rt, &[])?;
    try_file(rt, &[0x46])?;
    try_file(rt, &[0x46, 0x54, 5, 1, 2, 1, 0, 2, 0x45, 0x45])?;
    try_file(rt, &[0x46, 0x54, 5, 1, 0x0F, 0xA0, 2, 1, 0, 2, 0x45, 0x45])?;
    try_file(rt, &[0x55, 0x46, 5, 1, 0x0F, 0xA0, 2, 1, 0, 2, 0x45, 0x45])
}

// Files of 8, 9 and 10 bytes: the last is a whole head, and with no step the record of one cell. A head cut
// short before a bad side.
fn short_heads(rt: &impl Print) -> io::Result<()> {
    try_file(rt, &[0x46, 0x55, 5, 1, 0x0F, 0xA0, 2, 1])?;
    try_file(rt, &[0x46, 0x55, 5, 1, 0x0F, 0xA0, 2, 1, 0])?;
    try_file(rt, &[0x46, 0x55, 5, 1, 0x0F, 0xA0, 2, 1, 0, 0])?;
    try_file(rt, &[0x46, 0x55, 0, 1, 0x0F, 0xA0, 2, 1, 0])
}

fn bad_heads(rt: &impl Print) -> io::Result<()> {
    try_file(rt, &[0x46, 0x55, 0, 1, 0x0F, 0xA0, 2, 1, 0, 2, 0x45, 0x45])?;
    try_file(
        rt,
        &[0x46, 0x55, 5, 129, 0x0F, 0xA0, 2, 1, 0, 2, 0x45, 0x45],
    )?;
    try_file(rt, &[0x46, 0x55, 5, 1, 0x0F, 0xA0, 6, 1, 0, 2, 0x45, 0x45])?;
    try_file(rt, &[0x46, 0x55, 5, 1, 0x0F, 0xA0, 2, 0, 0, 2, 0x45, 0x45])
}

// At first no step, with bytes behind the record; then mn steps, more than that, and one on one cell.
fn step_counts(rt: &impl Print) -> io::Result<()> {
    try_file(rt, &[0x46, 0x55, 5, 1, 0x0F, 0xA0, 2, 1, 0, 0, 0x45, 0x45])?;
    try_file(rt, &[0x46, 0x55, 2, 1, 0x0F, 0xA0, 1, 1, 0, 2, 0x45, 0x57])?;
    try_file(rt, &[0x46, 0x55, 5, 1, 0x0F, 0xA0, 2, 1, 1, 2, 0x45, 0x45])?;
    try_file(rt, &[0x46, 0x55, 1, 1, 0x0F, 0xA0, 1, 1, 0, 1, 0x45])
}

fn bad_letters(rt: &impl Print) -> io::Result<()> {
    try_file(rt, &[0x46, 0x55, 5, 1, 0x0F, 0xA0, 2, 1, 0, 2, 0x45])?;
    try_file(rt, &[0x46, 0x55, 5, 1, 0x0F, 0xA0, 2, 1, 0, 2, 0x45, 0x58])?;
    try_file(
        rt,
        &[0x46, 0x55, 5, 1, 0x0F, 0xA0, 2, 1, 0, 3, 0x4E, 0x45, 0x65],
    )?;
    try_file(rt, &[0x46, 0x55, 5, 1, 0x0F, 0xA0, 2, 1, 0, 2, 0x57, 0x57])?;
    try_file(rt, &[0x46, 0x55, 5, 1, 0x0F, 0xA0, 2, 1, 0, 2, 0x4E, 0x53])
}

fn read_refusals(rt: &impl Print) -> io::Result<()> {
    text(rt, b"refusals of Read and Letters\n")?;
    bad_marks(rt)?;
    short_heads(rt)?;
    bad_heads(rt)?;
    step_counts(rt)?;
    bad_letters(rt)
}

// A record of three cells whose pitch is these two bytes.
fn read_pitch(rt: &impl Print, high: u8, low: u8) -> io::Result<()> {
    try_file(rt, &[0x46, 0x55, 5, 1, high, low, 2, 1, 0, 2, 0x45, 0x45])
}

// 999, 1000, 10000, 10001, 0 and 65535; then the bytes of 4000 exchanged.
fn read_pitches(rt: &impl Print) -> io::Result<()> {
    text(rt, b"pitches in Read and Letters\n")?;
    read_pitch(rt, 0x03, 0xE7)?;
    read_pitch(rt, 0x03, 0xE8)?;
    read_pitch(rt, 0x27, 0x10)?;
    read_pitch(rt, 0x27, 0x11)?;
    read_pitch(rt, 0, 0)?;
    read_pitch(rt, 0xFF, 0xFF)?;
    read_pitch(rt, 0xA0, 0x0F)
}

// A bad pitch behind the other mark, a head cut short and a bad side, which are tested before; then
// before each fault that is tested after it: 2, 15, 17, 16 and 7.
fn read_pitch_and_more(rt: &impl Print) -> io::Result<()> {
    try_file(rt, &[0x46, 0x54, 5, 1, 0, 0, 2, 1, 0, 2, 0x45, 0x45])?;
    try_file(rt, &[0x46, 0x55, 5, 1, 0x03, 0xE7, 2, 1, 0])?;
    try_file(rt, &[0x46, 0x55, 0, 1, 0, 0, 2, 1, 0, 2, 0x45, 0x45])?;
    try_file(rt, &[0x46, 0x55, 5, 1, 0x03, 0xE7, 6, 1, 0, 2, 0x45, 0x45])?;
    try_file(rt, &[0x46, 0x55, 5, 1, 0x27, 0x11, 2, 1, 0, 5])?;
    try_file(rt, &[0x46, 0x55, 5, 1, 0, 0, 2, 1, 0, 2, 0x45])?;
    try_file(rt, &[0x46, 0x55, 5, 1, 0xFF, 0xFF, 2, 1, 0, 2, 0x45, 0x58])?;
    try_file(rt, &[0x46, 0x55, 5, 1, 0x03, 0xE7, 2, 1, 0, 2, 0x57, 0x57])
}

// Reads into the first k bytes of a buffer.
fn read_into(rt: &impl Print, file: &[u8], list: &mut [u8], k: usize) -> io::Result<()>
    requires { k ≤ length list.old }
{
    show_read(rt, file, &mut list[0..k])
}

fn read_short(rt: &impl Print, file: &[u8], k: usize) -> io::Result<()>
    requires { k ≤ 8 }
{
    let mut list = [85u8; 8];
    read_into(rt, file, &mut list, k)?;
    show_bytes(rt, &list)
}

// A buffer that is empty, one that is a byte too short, and one just long enough; bytes after the record.
// Then an empty buffer behind a bad pitch; and a record of one cell, whose letters are empty as those of a
// refused file are: an empty buffer tells the two apart.
fn buffers(rt: &impl Print) -> io::Result<()> {
    text(rt, b"buffers\n")?;
    let file = [
        0x46, 0x55, 5, 1, 0x0F, 0xA0, 2, 1, 0, 2, 0x45, 0x45, 0x4E, 0x00,
    ];
    read_short(rt, &file, 0)?;
    read_short(rt, &file, 5)?;
    read_short(rt, &file, 6)?;
    show_letters(rt, &file)?;
    let other = [0x46, 0x55, 5, 1, 0x03, 0xE7, 2, 1, 0, 2, 0x45, 0x45];
    read_short(rt, &other, 0)?;
    show_letters(rt, &other)?;
    let spot = [0x46, 0x55, 5, 1, 0x0F, 0xA0, 2, 1, 0, 0, 0x4E];
    read_short(rt, &spot, 0)?;
    read_short(rt, &spot, 1)?;
    read_short(rt, &spot, 2)?;
    show_letters(rt, &spot)
}

// The number that Read gives for the first n bytes of a file.
fn read_prefix(rt: &impl Print, file: &[u8], n: usize) -> io::Result<()>
    requires { n ≤ length file.now }
{
    let mut list = [85u8; 8];
    let k = read_number(&file[0..n], &mut list);
    row(rt, &[k], b" ")
}

fn prefixes(rt: &impl Print, file: &[u8]) -> io::Result<()> {
    text(rt, b"prefixes\n")?;
    for n in 0..=file.len() {
        read_prefix(rt, file, n)?;
    }
    text(rt, b"\n")
}

// One more, up to a number that no tally here comes near.
fn one_more(k: u32) -> u32 {
    if k < 1000000 { k + 1 } else { k }
}

// Reads a file, and counts its answer.
fn count_answer(file: &[u8], tally: &mut [u32]) {
    let mut list = [85u8; 20];
    let k = read_number(file, &mut list) as usize;
    if k < tally.len() {
        tally[k] = one_more(tally[k]);
    }
}

// Reads a file with one byte changed, and counts its answer.
fn try_value(file: &mut [u8], i: usize, v: u8, tally: &mut [u32])
    requires { i < length file.old }
{
    let old = file[i];
    if v == old {
        return;
    }
    file[i] = v;
    count_answer(file, tally);
    file[i] = old;
}

fn try_bytes(file: &mut [u8], tally: &mut [u32]) {
    for i in 0..file.len() {
        for v in 0..=255 {
            try_value(file, i, v, tally);
        }
    }
}

// Every byte of a record changed to every other value: how many of the files get the number 0, 1, and so on.
fn changed_bytes(rt: &impl Print) -> io::Result<()> {
    text(rt, b"changed bytes\n")?;
    let mut file = [
        0x46, 0x55, 3, 3, 0x0F, 0xA0, 3, 3, 0, 8, 0x4E, 0x4E, 0x57, 0x53, 0x53, 0x57, 0x4E, 0x4E,
    ];
    let mut tally = [0u32; 19];
    try_bytes(&mut file, &mut tally);
    row(rt, &tally, b" \n")
}

// Writes into the first k bytes of a buffer.
fn write_into(rt: &impl Print, list: &[u8], out: &mut [u8], k: usize) -> io::Result<()>
    requires { k ≤ length out.old }
{
    show_write(rt, panel_of(128, 128, PITCH), list, &mut out[0..k])
}

// A track over the largest panel, there and back, and buffers a byte too short.
fn largest(rt: &impl Print) -> io::Result<()> {
    text(rt, b"128 by 128\n")?;
    let mut list = [0u8; 32768];
    snake(&mut list);
    let mut out = [170u8; 16393];
    write_into(rt, &list, &mut out, 16392)?;
    write_into(rt, &list, &mut out, 16393)?;
    let mut back = [85u8; 32768];
    read_into(rt, &out, &mut back, 32767)?;
    read_into(rt, &out, &mut back, 32768)?;
    if list == back {
        text(rt, b"the same list\n")
    } else {
        text(rt, b"another list\n")
    }
}

fn main(rt: HostRuntime) -> io::Result<()> {
    round_trips(&rt)?;
    write_refusals(&rt)?;
    write_pitches(&rt)?;
    write_pitch_and_more(&rt)?;
    read_refusals(&rt)?;
    read_pitches(&rt)?;
    read_pitch_and_more(&rt)?;
    buffers(&rt)?;
    prefixes(&rt, &[0x46, 0x55, 5, 1, 0x0F, 0xA0, 2, 1, 0, 2, 0x45, 0x45])?;
    // A bad pitch, which is looked at from 10 bytes on.
    prefixes(&rt, &[0x46, 0x55, 5, 1, 0x03, 0xE7, 2, 1, 0, 2, 0x45, 0x45])?;
    // A record of one cell is its head.
    prefixes(&rt, &[0x46, 0x55, 5, 1, 0x0F, 0xA0, 2, 1, 0, 0, 0x45, 0x45])?;
    changed_bytes(&rt)?;
    largest(&rt)
}
