// The lines of a layer, one behind another, into whatever takes them.
ghost use Rattle.std.specs.Prelude.{◌≡◌, true, [], ◌∷◌, map};
ghost use Rattle.grid.specs.Panel.{GoodPanel, OnPanel};
ghost use Rattle.grid.specs.Bytes.{cell_of, cells_in};
ghost use Rattle.list.specs.List.{all_on};
ghost use Rattle.gerber.specs.Layer.{line_to, end_line, turns_from, draw_lines, lines_of};
ghost use Rattle.gerber_write.specs.Write.{layer_bytes};

use crate::sink::Sink;
use gerber::{head_of, is_straight, plot_x, plot_y};
use grid::{Cell, Panel};
use list::pairs;

// A good panel, on which cells are plotted.
#[derive(Clone, Copy)]
pub(crate) struct Sheet {
    pub(crate) panel: Panel,
    ghost good: { GoodPanel panel },
}

impl Sheet {
    // The line to a cell's centre, with the operation behind its D.
    fn line<S: Sink>(self, sink: &mut S, operation: &[u8], c: Cell)
        requires on { OnPanel self.panel c }
        requires room { S.Fits sink.old (line_to self.panel operation.now c []) }
        ensures { S.Takes sink.old (line_to self.panel operation.now c []) sink.new }
    {
        sink.text(b"X");
        sink.number(plot_x(self.panel, c), b'Y');
        sink.number(plot_y(self.panel, c), b'D');
        sink.text(operation);
    }

    // The same with the last line behind it.
    fn last<S: Sink>(self, sink: &mut S, operation: &[u8], c: Cell)
        requires on { OnPanel self.panel c }
        requires room { S.Fits sink.old (line_to self.panel operation.now c end_line) }
        ensures { S.Takes sink.old (line_to self.panel operation.now c end_line) sink.new }
    {
        self.line(sink, operation, c);
        sink.text(b"M02*\n");
    }

    // The draws behind the first cell of two or more: to each where the direction changes, and to the last.
    fn draws<S: Sink>(self, sink: &mut S, first: Cell, second: Cell, rest: &[[u8; 2]])
        requires on { all_on self.panel (second ∷ map cell_of rest.now) ≡ true }
        requires room { S.Fits sink.old (draw_lines self.panel (turns_from first second (map cell_of rest.now))) }
        ensures { S.Takes sink.old (draw_lines self.panel (turns_from first second (map cell_of rest.now))) sink.new }
    {
        let mut from = first;
        let mut to = second;
        for &pair in rest {
            let next = Cell::from(pair);
            if !is_straight(from, to, next) {
                self.line(sink, b"01*\n", to);
            }
            from = to;
            to = next;
        }
        self.last(sink, b"01*\n", to);
    }

    // The lines behind the head: a flash at the only cell, or a move to the first one and the draws.
    fn lines<S: Sink>(self, sink: &mut S, cells: &[[u8; 2]])
        requires on { all_on self.panel (map cell_of cells.now) ≡ true }
        requires room { S.Fits sink.old (lines_of self.panel (map cell_of cells.now)) }
        ensures { S.Takes sink.old (lines_of self.panel (map cell_of cells.now)) sink.new }
    {
        match cells {
            [] => sink.text(b"M02*\n"),
            [only] => self.last(sink, b"03*\n", Cell::from(*only)),
            [first, second, rest @ ..] => {
                let first = Cell::from(*first);
                self.line(sink, b"02*\n", first);
                self.draws(sink, first, Cell::from(*second), rest);
            }
        }
    }

    // The layer of a good list.
    pub(crate) fn layer<S: Sink>(self, sink: &mut S, list: &[u8])
        requires on { all_on self.panel (cells_in list.now) ≡ true }
        requires room { S.Fits sink.old (layer_bytes self.panel list.now) }
        ensures { S.Takes sink.old (layer_bytes self.panel list.now) sink.new }
    {
        sink.text(&head_of(self.panel));
        self.lines(sink, pairs(list));
    }
}
