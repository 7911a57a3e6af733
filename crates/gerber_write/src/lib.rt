// Writes a list of cells as a Gerber layer.
#![tactic(auto)]

ghost use Rattle.std.specs.Prelude.{◌≡◌, true, ◌≤◌, length};
ghost use Rattle.grid.specs.Bytes.{cells_in};
ghost use Rattle.gerber_write.specs.Write.{digit_room, layer_bytes, Plottable, PutThrough, WritesLayer};

mod sheet;
mod sink;

use grid::{Panel, Refusal, ensure};
use list::check_list;
use scratch::clear_front;
use sheet::Sheet;
use sink::{Meter, Pen};

// The bytes of scratch that hold a number's digits.
pub const DIGIT_ROOM: usize = 10;

// The layer of a good list, at the front of the buffer.
pub fn put_layer(p: Panel, list: &[u8], scratch: &mut [u8], out: &mut [u8]) -> usize
    requires plottable { Plottable p list.now }
    requires digit_room_in_bounds { digit_room ≤ length scratch.old }
    requires list_in_bounds { length (layer_bytes p list.now) ≤ length out.old }
    ensures { PutThrough scratch.old scratch.new out.old 0
        (layer_bytes p list.now) out.new result }
{
    let mut pen = Pen {
        digits: &mut scratch[..DIGIT_ROOM],
        out,
        at: 0,
    };
    Sheet { panel: p }.layer(&mut pen, list);
    pen.at
}

// The bytes of the layer of a good list, counted without scratch.
#[tactic(auto, using(crate::proofs::Draws::layer_small))]
pub fn layer_length(p: Panel, list: &[u8]) -> usize
    requires { Plottable p list.now }
    ensures { (result ≡ length (layer_bytes p list.now)) × (result ≤ 442422) }
{
    let mut meter = Meter { bytes: 0 };
    Sheet { panel: p }.layer(&mut meter, list);
    meter.bytes
}

#[tactic(auto, using(crate::proofs::Made::plottable))]
pub fn write_layer(
    p: Panel,
    list: &[u8],
    scratch: &mut [u8],
    out: &mut [u8],
) -> Result<u32, Refusal>
    ensures { WritesLayer p list.now scratch.old scratch.new out.old out.new result }
{
    check_list(p, list)?;
    let bytes = layer_length(p, list);
    ensure(
        DIGIT_ROOM <= scratch.len() && bytes <= out.len(),
        Refusal::ShortBuffer,
    )?;
    put_layer(p, list, scratch, out);
    clear_front(DIGIT_ROOM, scratch);
    Ok(bytes as u32)
}
