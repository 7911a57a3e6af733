// What the writer and the reader of a Gerber layer share: its head, the place of a cell's centre, and
// whether three cells lie in one direction.
#![tactic(auto)]

ghost use Rattle.std.specs.Prelude.{◌≡◌, ◌*◌, ◌≤◌};
ghost use Rattle.grid.specs.Panel.{GoodPanel, OnPanel};
ghost use Rattle.gerber.specs.Layer.{plot_x, plot_y, head_of, straight};

use grid::{Cell, Panel};
use text::digit_of;

// The bytes of a head.
pub const HEAD: usize = 49;

// The lines in front of every list's, but for the digits of d.
const HEAD_TEXT: [u8; HEAD] = *b"%FSLAX46Y46*%\n%MOMM*%\n%ADD10C,0.0000*%\nD10*\nG01*\n";

// The digits of half the pitch in ten-thousandths of a millimetre go where the text has zeros.
#[tactic(auto, unfolding(crate::specs::Layer::head_of))]
pub fn head_of(p: Panel) -> [u8; HEAD]
    requires { GoodPanel p }
    ensures { result ≡ head_of p }
{
    let half = 5 * p.pitch;
    let mut head = HEAD_TEXT;
    head[30] = digit_of(half / 10000 % 10);
    head[32] = digit_of(half / 1000 % 10);
    head[33] = digit_of(half / 100 % 10);
    head[34] = digit_of(half / 10 % 10);
    head[35] = digit_of(half % 10);
    head
}

// So many halves of the pitch, in nanometres.
fn half_pitches(p: Panel, k: u32) -> u32
    requires { (GoodPanel p) × (k ≤ 255) }
    ensures { result ≡ k * p.pitch * 500 }
{
    k * p.pitch * 500
}

#[tactic(auto, unfolding(crate::specs::Layer::plot_x))]
pub fn plot_x(p: Panel, c: Cell) -> u32
    requires { (GoodPanel p) × (OnPanel p c) }
    ensures { result ≡ plot_x p c }
{
    half_pitches(p, 2 * c.x - 1)
}

#[tactic(auto, unfolding(crate::specs::Layer::plot_y))]
pub fn plot_y(p: Panel, c: Cell) -> u32
    requires { (GoodPanel p) × (OnPanel p c) }
    ensures { result ≡ plot_y p c }
{
    half_pitches(p, 2 * (p.height - c.y) + 1)
}

// Whether b is the middle of a and c. Sums of any 32-bit numbers fit.
#[tactic(auto, unfolding(crate::specs::Layer::straight))]
pub fn is_straight(a: Cell, b: Cell, c: Cell) -> bool
    ensures { result ≡ straight a b c }
{
    u64::from(a.x) + u64::from(c.x) == 2 * u64::from(b.x)
        && u64::from(a.y) + u64::from(c.y) == 2 * u64::from(b.y)
}
