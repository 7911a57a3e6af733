// Probe: inspection touches up to 64 cells of a foil and is told where along its track each one is.
#![tactic(auto)]

ghost use Rattle.std.specs.Prelude.{◌≡◌};
ghost use Rattle.probe.specs.Probe.{few_probes, Probes};

use grid::{Cell, Cells, Order, Refusal, ensure};
use judge::judge;
use list::all_on_panel;
use probe_walk::{Found, PLACES, find_probes, nearest_cells};

// What Probe answers: for each of 64 places, in the order of the probes, the position along the track,
// counted from 1, or 0, and for a probe that is not on the track its nearest cell, else (0, 0); and how
// many cells of the list were read to find the positions.
#[derive(Clone, Copy, Debug, PartialEq, Eq)]
pub struct ProbeSheet {
    pub positions: [u32; PLACES],
    pub nearest: [Cell; PLACES],
    pub read: Cells,
}

// Whether so many bytes hold at most 64 probes and nothing else.
fn few_probes(bytes: usize) -> bool
    ensures { result ≡ few_probes bytes }
{
    bytes <= 2 * PLACES && bytes % 2 == 0
}

// Where the probes are along the track that the list is.
pub fn probe(
    o: Order,
    list: &[u8],
    scratch: &mut [u8],
    probes: &[u8],
) -> Result<ProbeSheet, Refusal>
    ensures { Probes o.panel o.entry o.exit list.now probes.now scratch.old scratch.new result }
{
    ensure(few_probes(probes.len()), Refusal::ProbeBytes)?;
    judge(o, list, scratch)?;
    ensure(all_on_panel(o.panel, probes), Refusal::CellOff)?;
    let Found { positions, read } = find_probes(o.panel, list, probes, scratch);
    let nearest = nearest_cells(list, probes, positions);
    Ok(ProbeSheet {
        positions,
        nearest,
        read,
    })
}
