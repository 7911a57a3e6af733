// Records: Write makes one of a panel and a list of neighbours, Read gives panel and list back, Letters
// hands back the part of the file that holds the step letters.
#![tactic(auto)]

ghost use Rattle.std.specs.Prelude.{◌≡◌, true, ◌≤◌, ◌<◌, ◌*◌, length};
ghost use Rattle.grid.specs.Panel.{OnPanel, on_panel, good_panel};
ghost use Rattle.grid.specs.Answer.{cells_answer};
ghost use Rattle.list.specs.List.{all_on, with_cells};
ghost use Rattle.step_letters.specs.Letters.{all_known, walk_from, largest_panel};
ghost use Rattle.record.specs.Write.{Writes};
ghost use Rattle.record.specs.Read.{check_known, check_steps, check_letters, record_cells, Reads, Lettered};

use grid::{Cell, Cells, Panel, Refusal, ensure, on_panel, steps_of};
use list::{cell_at, check_list, put_cell};
use record_head::{HEAD, Head, check_head, head_in, letters_in, write_head};
use step_letters::{step_by, write_letters};

// What Read gives: the panel, the cell count and the record length.
#[derive(Clone, Copy, Debug, PartialEq, Eq)]
pub struct Recorded {
    pub panel: Panel,
    pub cells: Cells,
    pub bytes: u32,
}

pub fn write(p: Panel, list: &[u8], out: &mut [u8]) -> Result<u32, Refusal>
    ensures { Writes p list.now out.old out.new result }
{
    check_list(p, list)?;
    let cells = (list.len() / 2) as u32;
    let head = Head {
        panel: p,
        entry: cell_at(list, 0),
        steps: steps_of(Cells(cells)),
    };
    let bytes = HEAD + head.steps.0 as usize;
    ensure(bytes <= out.len(), Refusal::ShortBuffer)?;
    write_head(head, out);
    write_letters(list, out, HEAD);
    Ok(bytes as u32)
}

// Whether every byte is a letter, tried from one cell.
fn check_known(c: Cell, letters: &[u8]) -> Result<(), Refusal>
    requires { OnPanel largest_panel c }
    ensures { result ≡ check_known letters.now }
{
    for &letter in letters {
        step_by(c, letter)?;
    }
    Ok(())
}

// Whether a walk over letters stays on the panel.
fn check_steps(p: Panel, s: Cell, letters: &[u8]) -> Result<(), Refusal>
    requires good { good_panel p ≡ true }
    requires on { on_panel p s ≡ true }
    requires known { all_known letters.now ≡ true }
    ensures { result ≡ check_steps p s letters.now }
{
    let mut at = s;
    for &letter in letters {
        at = step_by(at, letter)?;
        ensure(on_panel(p, at), Refusal::CellOff)?;
    }
    Ok(())
}

// Why letters are refused, or how many cells they lead over: one, and another for each.
fn count_cells(p: Panel, s: Cell, letters: &[u8]) -> Result<Cells, Refusal>
    requires good { good_panel p ≡ true }
    requires on { on_panel p s ≡ true }
    requires few { length letters.now < 65536 }
    ensures { result ≡ cells_answer (check_letters p s letters.now) (length (walk_from s letters.now)) }
{
    check_known(s, letters)?;
    check_steps(p, s, letters)?;
    Ok(Cells(1 + letters.len() as u32))
}

// What Letters refuses, or the record's cell count.
fn find_record(file: &[u8]) -> Result<Cells, Refusal>
    ensures { result ≡ record_cells file.now }
{
    check_head(file)?;
    let h = head_in(file);
    count_cells(h.panel, h.entry, letters_in(file))
}

// The cells that letters lead over, at the front of the buffer.
fn write_cells(s: Cell, letters: &[u8], list: &mut [u8])
    requires on { all_on largest_panel (walk_from s letters.now) ≡ true }
    requires room { 2 * length (walk_from s letters.now) ≤ length list.old }
    ensures { list.new ≡ with_cells (walk_from s letters.now) list.old }
{
    put_cell(list, 0, s);
    let mut at = s;
    for (i, &letter) in letters.iter().enumerate() {
        at = step_by(at, letter).unwrap();
        put_cell(list, 2 * (i + 1), at);
    }
}

pub fn read(file: &[u8], list: &mut [u8]) -> Result<Recorded, Refusal>
    ensures { Reads file.now list.old list.new result }
{
    let cells = find_record(file)?;
    ensure(2 * cells.0 as usize <= list.len(), Refusal::ShortBuffer)?;
    let h = head_in(file);
    write_cells(h.entry, letters_in(file), list);
    Ok(Recorded {
        panel: h.panel,
        cells,
        bytes: HEAD as u32 + h.steps.0,
    })
}

pub fn letters<'a>(file: &'a [u8]) -> &'a [u8]
    ensures { Lettered file.entry result }
{
    match find_record(file) {
        Ok(_) => letters_in(file),
        Err(_) => &file[..0], // the empty stretch at the front
    }
}
