// Logs in buffers, written and read plainly, apart from the call's own code: an entry is six bytes, its cell
// and its tick.
use grid::{Cell, Panel, area_of};

// The first bytes of a log, as many as it has.
pub fn front(log: &[u8], bytes: usize) -> &[u8] {
    &log[..bytes.min(log.len())]
}

// The bytes of each entry; fewer at the end are none.
pub fn entries(log: &[u8]) -> &[[u8; 6]] {
    log.as_chunks::<6>().0
}

pub fn cell_of(entry: [u8; 6]) -> Cell {
    let [x, y, _, _, _, _] = entry;
    Cell {
        x: u32::from(x),
        y: u32::from(y),
    }
}

pub fn tick_of(entry: [u8; 6]) -> u32 {
    let [_, _, a, b, c, d] = entry;
    u32::from_be_bytes([a, b, c, d])
}

// Makes the log's entry i, where the buffer has room.
pub fn put_entry(log: &mut [u8], i: u32, c: Cell, tick: u32) {
    let [high, second, third, low] = tick.to_be_bytes();
    let (x, y) = ((c.x % 256) as u8, (c.y % 256) as u8);
    if let Some(entry) = log.as_chunks_mut::<6>().0.get_mut(i as usize) {
        *entry = [x, y, high, second, third, low];
    }
}

// ---- every cell of a panel

// The panel, whether its rows are logged from the last cell to the first, and the tick of the first entry:
// every other entry has one more than the one before it.
#[derive(Clone, Copy, Debug, PartialEq, Eq)]
pub struct Rows {
    pub panel: Panel,
    pub backwards: bool,
    pub first: u32,
}

// The number from the end of the one that is number i of n.
fn from_end(n: u32, i: u32) -> u32 {
    if i < n { n - i - 1 } else { 0 }
}

fn cell_in_rows(width: u32, k: u32) -> Cell {
    if width == 0 {
        return Cell { x: 0, y: 0 };
    }
    Cell {
        x: (k % width).wrapping_add(1),
        y: (k / width).wrapping_add(1),
    }
}

// The panel's cells at the front of a log.
pub fn put_rows(log: &mut [u8], r: Rows) {
    let n = (area_of(r.panel) % 65536) as u32;
    for i in 0..n {
        let k = if r.backwards { from_end(n, i) } else { i };
        put_entry(
            log,
            i,
            cell_in_rows(r.panel.width, k),
            r.first.wrapping_add(i),
        );
    }
}
