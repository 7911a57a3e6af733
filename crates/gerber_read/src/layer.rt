// A file that is read as the layer of a good panel.
ghost use Rattle.std.specs.Prelude.{◌≡◌, ◌*◌, ◌≤◌, length, MatchOption};
ghost use Rattle.grid.specs.Panel.{GoodPanel, OnPanel};
ghost use Rattle.list.specs.List.{with_cells};
ghost use Rattle.gerber_trace.specs.Trace.{traced};
ghost use Rattle.gerber_trace.specs.Trace.Found.{none};
ghost use Rattle.gerber_read.specs.Read.{start_at, found_list, size_of, led, Starts, ReadsLayer};

use crate::Start;
use gerber_trace::{Target, Trace, first_at, is_end, step_on};
use grid::{Cells, Panel, Refusal, area_of, ensure};
use list::put_cell;

// The way through a layer begins at its first cell, which is its own goal: every direction is another.
fn start_at(first: Target) -> Trace
    ensures { result ≡ start_at first.cell first.next }
{
    Trace {
        before: first.cell,
        at: first.cell,
        goal: first.cell,
        next: first.next,
    }
}

// A file that is read as the layer of a good panel.
#[derive(Clone, Copy)]
pub(crate) struct Layer<'a> {
    pub(crate) panel: Panel,
    pub(crate) file: &'a [u8],
    ghost good: { GoodPanel panel },
}

impl Layer<'_> {
    // How many cells there are from a first one on; none if the file goes on as no layer does.
    fn count_cells(self, first: Target) -> Option<usize>
        requires { OnPanel self.panel first.cell }
        ensures { result ≡ size_of (led self.entry.panel self.entry.file.now first) }
    {
        let mut t = start_at(first);
        for behind in 0..area_of(self.panel) {
            match step_on(self.panel, self.file, t)? {
                None => return Some(behind + 1),
                Some(u) => t = u,
            }
        }
        None
    }

    // Where there is a flash its cell alone, if the last line follows; where there is none, the cells of a
    // move. A move without a draw is no layer: the list of one cell has a flash.
    fn start(self) -> Option<Start>
        ensures { MatchOption result
            (none ≡ traced self.entry.panel self.entry.file.now)
            (λ s. Starts self.entry.panel self.entry.file.now s) }
    {
        if let Some(first) = first_at(self.panel, b"03*\n", self.file) {
            return is_end(self.file, first.next).then_some(Start { first, count: 1 });
        }
        let first = first_at(self.panel, b"02*\n", self.file)?;
        let count = self.count_cells(first)?;
        (2 <= count).then_some(Start { first, count })
    }

    // The cells that were found, at the front of the buffer. It walks as `count_cells` does, but each keeps its
    // loop: a walk that handed the cells to a closure would say of both what each says of its own.
    fn write_cells(self, start: Start, list: &mut [u8])
        requires start { Starts self.panel self.file.now start }
        requires room { 2 * start.count ≤ length list.old }
        ensures { list.new ≡ with_cells (found_list (led self.entry.panel self.entry.file.now start.first)) list.old }
    {
        let mut t = start_at(start.first);
        put_cell(list, 0, t.at);
        for i in 1..start.count {
            let Some(u) = step_on(self.panel, self.file, t).flatten() else {
                return;
            };
            put_cell(list, 2 * i, u.at);
            t = u;
        }
    }

    pub(crate) fn read(self, list: &mut [u8]) -> Result<Cells, Refusal>
        ensures { ReadsLayer self.entry.panel self.entry.file.now list.old list.new result }
    {
        let start = self.start().ok_or(Refusal::UnknownByte)?;
        ensure(2 * start.count <= list.len(), Refusal::ShortBuffer)?;
        self.write_cells(start, list);
        Ok(Cells(start.count as u32))
    }
}
