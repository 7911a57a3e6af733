// Ring: a longest closed track from (1, 1). It is the corner track from (1, 1) to its neighbour (2, 1)
// in the whole panel.
#![tactic(auto)]

ghost use Rattle.std.specs.Prelude.{◌≡◌};
ghost use Rattle.grid.specs.Panel.{GoodSides};
ghost use Rattle.ring.specs.Ring.{two_wide, ring_count, ring_check, Rings};

use corner::corner_track;
use grid::{Cell, Cells, Panel, Refusal, area_of, check_panel, ensure};

fn two_wide(p: Panel) -> bool
    ensures { result ≡ two_wide p }
{
    2 <= p.width && 2 <= p.height
}

// mn without its odd cell.
fn ring_count(p: Panel) -> Cells
    requires { GoodSides p }
    ensures { result.0 ≡ ring_count p }
{
    Cells((area_of(p) / 2 * 2) as u32)
}

// The refusals in order, for a buffer of `size` bytes.
fn check_ring(p: Panel, size: usize) -> Result<(), Refusal>
    ensures { result ≡ ring_check p size }
{
    check_panel(p)?;
    ensure(two_wide(p), Refusal::OneWide)?;
    ensure(2 * (ring_count(p).0 as usize) <= size, Refusal::ShortBuffer)
}

// The call.
pub fn ring(p: Panel, buf: &mut [u8]) -> Result<Cells, Refusal>
    ensures { Rings p buf.old buf.new result }
{
    check_ring(p, buf.len())?;
    let first = Cell { x: 1, y: 1 };
    let far = Cell {
        x: p.width,
        y: p.height,
    };
    let last = Cell { x: 2, y: 1 };
    Ok(corner_track(first, far, last, buf))
}
