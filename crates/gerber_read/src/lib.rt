// Reads a Gerber layer back as its list of cells.
#![tactic(auto)]

ghost use Rattle.gerber_read.specs.Read.{ReadsLayer};

mod layer;

use gerber_trace::Target;
use grid::{Cells, Panel, Refusal, check_panel};
use layer::Layer;

// A list that was found in a file: where its first cell stands, and how many there are.
#[derive(Clone, Copy, Debug, PartialEq, Eq)]
pub(crate) struct Start {
    pub(crate) first: Target,
    pub(crate) count: usize,
}

pub fn read_layer(p: Panel, file: &[u8], list: &mut [u8]) -> Result<Cells, Refusal>
    ensures { ReadsLayer p file.now list.old list.new result }
{
    check_panel(p)?;
    Layer { panel: p, file }.read(list)
}
