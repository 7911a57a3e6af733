// Edits of a drawing: a step of a track becomes a detour over the two cells beside it, or such a detour a step
// again. The tests of an edit, and the edit itself in the buffer that holds the track.
#![tactic(auto)]

mod step;

ghost use Rattle.std.specs.Prelude.{◌≡◌, [], ◌∷◌, ◌++◌, ◌+◌, ◌-◌, ◌*◌, ◌≤◌, length, take, replicate};
ghost use Rattle.std.proofs.Math.Seq.{paste};
ghost use Rattle.grid.specs.Panel.{max_side};
ghost use Rattle.grid.specs.Bytes.{bytes, cells_in, front};
ghost use Rattle.list.specs.List.{among};
ghost use Rattle.detour.specs.declared.Kind.TheVariants.{Bulge, Press};
ghost use Rattle.detour.specs.Detour.{is_free, can_bulge, is_detour, can_edit, opposite, press_at, edited, with_zeros};
ghost use Rattle.edit_list.specs.Possible.{Possible};

use crate::step::{Step, cell_no};
use detour::{Edit, Kind, Side};
use grid::{Cell, Panel, on_panel};
use list::{adjacent, pairs, put_cell};

// Whether the cell stands in the list.
fn stands_in(list: &[u8], c: Cell) -> bool
    ensures { result ≡ among c (cells_in list.now) }
{
    pairs(list).iter().any(|&pair| c == Cell::from(pair))
}

// Whether a detour may take the cell.
fn is_free(p: Panel, list: &[u8], c: Cell) -> bool
    ensures { result ≡ is_free p (cells_in list.now) c }
{
    on_panel(p, c) && !stands_in(list, c)
}

// Whether the step at the edit's place is there, with a free detour on its side.
#[tactic(auto, using(list::proofs::Cells::length_cells))]
fn can_bulge(p: Panel, list: &[u8], e: Edit) -> bool
    ensures { result ≡ can_bulge p e.side e.place (cells_in list.now) }
{
    let k = e.place as usize;
    if k == 0 || list.len() / 2 < k + 1 {
        return false;
    }
    let step = Step::between(list, k, k + 1, e.side);
    is_free(p, list, step.beside_from()) && is_free(p, list, step.beside_to())
}

// Whether the two cells behind the edit's place are the detour of a step, on its side.
#[tactic(auto, using(list::proofs::Cells::length_cells))]
fn is_detour(list: &[u8], e: Edit) -> bool
    ensures { result ≡ is_detour e.side e.place (cells_in list.now) }
{
    let k = e.place as usize;
    if k == 0 || list.len() / 2 < k + 3 {
        return false;
    }
    let step = Step::between(list, k, k + 3, e.side);
    adjacent(step.from, step.to)
        && cell_no(list, k + 1) == step.beside_from()
        && cell_no(list, k + 2) == step.beside_to()
}

// The press at a place, with the side that its detour is on.
pub fn press_at(list: &[u8], place: u32) -> Edit
    ensures { result ≡ press_at place (cells_in list.now) }
{
    let left = Edit {
        place,
        kind: Kind::Press,
        side: Side::Left,
    };
    if is_detour(list, left) {
        return left;
    }
    Edit {
        side: Side::Right,
        ..left
    }
}

// Whether the edit can be made.
pub fn can_edit(p: Panel, list: &[u8], e: Edit) -> bool
    ensures { result ≡ can_edit p e (cells_in list.now) }
{
    match e.kind {
        Kind::Bulge => can_bulge(p, list, e),
        Kind::Press => is_detour(list, e),
    }
}

pub fn opposite(e: Edit) -> Edit
    ensures { result ≡ opposite e }
{
    let kind = match e.kind {
        Kind::Bulge => Kind::Press,
        Kind::Press => Kind::Bulge,
    };
    Edit { kind, ..e }
}

// Zeros from `start` on.
fn clear_behind(list: &mut [u8], start: usize)
    requires { start ≤ length list.old }
    ensures { list.new ≡ take start list.old ++ replicate (length list.old - start) 0 }
{
    list[start..].fill(0);
}

// The two cells of a detour, from a byte on.
fn put_detour(list: &mut [u8], at: usize, c: Cell, d: Cell)
    requires { (c.x ≤ max_side) × (c.y ≤ max_side) × (d.x ≤ max_side) × (d.y ≤ max_side) × (at + 4 ≤ length list.old) }
    ensures { list.new ≡ paste list.old at (bytes (c ∷ d ∷ [])) 4 }
{
    put_cell(list, at, c);
    put_cell(list, at + 2, d);
}

// The bulge of a list of so many cells in front of the buffer, and zeros behind it. The number goes beside the
// buffer, since the list grows into what is behind it, and nothing here allocates.
fn bulge(list: &mut [u8], cells: usize, e: Edit)
    requires kind { e.kind ≡ Bulge }
    requires held { 2 * (cells + 2) ≤ length list.old }
    requires can { Possible e (front cells list.old) }
    ensures { list.new ≡ with_zeros (edited e (front cells list.old)) (length list.old) }
{
    let k = e.place as usize;
    let step = Step::between(&list[..2 * cells], k, k + 1, e.side);
    list.copy_within(2 * k..2 * cells, 2 * k + 4);
    put_detour(list, 2 * k, step.beside_from(), step.beside_to());
    clear_behind(list, 2 * (cells + 2));
}

// The press of such a list.
fn press(list: &mut [u8], cells: usize, e: Edit)
    requires kind { e.kind ≡ Press }
    requires held { 2 * cells ≤ length list.old }
    requires can { Possible e (front cells list.old) }
    ensures { list.new ≡ with_zeros (edited e (front cells list.old)) (length list.old) }
{
    let k = e.place as usize;
    list.copy_within(2 * k + 4..2 * cells, 2 * k);
    clear_behind(list, 2 * (cells - 2));
}

// Makes the edit of such a list.
pub fn make(list: &mut [u8], cells: usize, e: Edit)
    requires held { 2 * cells ≤ length list.old }
    requires room { 2 * length (edited e (front cells list.old)) ≤ length list.old }
    requires can { Possible e (front cells list.old) }
    ensures { list.new ≡ with_zeros (edited e (front cells list.old)) (length list.old) }
{
    match e.kind {
        Kind::Bulge => bulge(list, cells, e),
        Kind::Press => press(list, cells, e),
    }
}
