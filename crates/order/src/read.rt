// Reads an order's line: seven numbers in base ten.
ghost use Rattle.std.specs.Prelude.{◌≡◌};
ghost use Rattle.order.specs.Line.{line_in};

use grid::{Cell, Order, panel_of};
use text::{BLANK, LINE_FEED, read_field};

// Six numbers with a blank behind each, and the pitch with a line feed; nothing where the line has another form.
pub fn read_line(input: &[u8]) -> Option<Order>
    ensures { result ≡ line_in input.now }
{
    let mut first = [0u32; 6];
    let mut from = 0;
    for i in 0..6 {
        let field = read_field(input, from, BLANK)?;
        first[i] = field.value;
        from = field.next;
    }
    let pitch = read_field(input, from, LINE_FEED)?.value;
    Some(Order {
        panel: panel_of(first[0], first[1], pitch),
        entry: Cell {
            x: first[2],
            y: first[3],
        },
        exit: Cell {
            x: first[4],
            y: first[5],
        },
    })
}
