// What Probe must answer, by the words of the request. Only Judge is the router's.
use grid::{Cell, Order};
use probe::ProbeSheet;
use trial::cells::{cell_at, cells_in, on};
use trial::plain::{Sheet, blank, sheet_of};

// The numbers of a sheet that Probe gave.
pub fn numbers_of(sheet: ProbeSheet) -> Sheet {
    let positions = sheet.positions;
    let nearest = sheet.nearest;
    Sheet {
        refusal: 0,
        positions,
        nearest,
        read: sheet.read.0,
    }
}

// Whether some probe is off the panel.
fn some_off(o: Order, probes: &[u8]) -> bool {
    let low = Cell { x: 1, y: 1 };
    (0..cells_in(probes.len())).any(|i| !on(o.panel, low, cell_at(probes, i)))
}

// 20, then Judge's refusals, with Judge's scratch, then 7.
fn refusal_of(o: Order, list: &[u8], scratch: &mut [u8], probes: &[u8]) -> u32 {
    if 128 < probes.len() || probes.len() % 2 == 1 {
        return 20;
    }
    match judge::judge(o, list, scratch) {
        Err(r) => u32::from(r),
        Ok(_) if some_off(o, probes) => 7,
        Ok(_) => 0,
    }
}

pub fn expected_sheet(o: Order, list: &[u8], scratch: &mut [u8], probes: &[u8]) -> Sheet {
    let refusal = refusal_of(o, list, scratch, probes);
    if refusal != 0 {
        return blank(refusal);
    }
    sheet_of(list, probes)
}
