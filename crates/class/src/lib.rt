// Class and count of two different terminals: the panel turned, the terminals named, the first line that
// fits; and of an order, whose terminals may be equal.
#![tactic(auto)]

ghost use Rattle.std.specs.Prelude.{◌≡◌, ◌≤◌, min};
ghost use Rattle.grid.specs.Panel.{GoodSides, OnPanel, turned, turned_cell};
ghost use Rattle.count.specs.Count.{decided, named, class_count};
ghost use Rattle.count.specs.Order.{order_class_count};
ghost use Rattle.cases.specs.Placed.{Placed};

use cases::{by_colour, f2_count, is_f1, is_f2, is_f3};
use count::ClassCount;
use grid::{Cells, Order, Panel, area_of, turn_cell, turn_panel};

// An order whose sides are good and whose terminals are on its panel. The terminals s and t of the
// definition are its entry and its exit.
#[derive(Clone, Copy)]
struct Terminals {
    order: Order,
    ghost placed: { Placed order.panel order.entry order.exit },
}

impl Terminals {
    fn turned(self) -> Terminals
        ensures panel { result.order.panel ≡ turned self.order.panel }
        ensures entry { result.order.entry ≡ turned_cell self.order.entry }
        ensures exit { result.order.exit ≡ turned_cell self.order.exit }
    {
        Terminals {
            order: Order {
                panel: turn_panel(self.order.panel),
                entry: turn_cell(self.order.entry),
                exit: turn_cell(self.order.exit),
            },
        }
    }

    #[tactic(auto, using(count::proofs::Laws::decided_by_colour, count::proofs::Laws::f3_c2), unfolding(count::specs::Count::decided))]
    fn decide(self) -> ClassCount
        requires { self.order.entry.x ≤ self.order.exit.x }
        ensures { result ≡ decided self.order.panel self.order.entry self.order.exit }
    {
        let o = self.order;
        if is_f1(o) {
            return ClassCount {
                class: 1,
                count: Cells(o.exit.x - o.entry.x + 1),
            };
        }
        if is_f2(o) {
            return ClassCount {
                class: 2,
                count: Cells(f2_count(o)),
            };
        }
        if is_f3(o) {
            return ClassCount {
                class: 5,
                count: Cells(area_of(o.panel) as u32 - 2),
            };
        }
        by_colour(o)
    }

    // Exchanged before the one call of `decide`, which is so compiled in place.
    #[tactic(auto, unfolding(count::specs::Count::named))]
    fn name_terminals(self) -> ClassCount
        ensures { result ≡ named self.order.panel self.order.entry self.order.exit }
    {
        let Order { panel, entry, exit } = self.order;
        let mut left = entry;
        let mut right = exit;
        if exit.x < entry.x {
            left = exit;
            right = entry;
        }
        let order = Order {
            panel,
            entry: left,
            exit: right,
        };
        Terminals { order }.decide()
    }

    // The definition as it stands: the panel turned, the terminals named, the first line that fits.
    #[tactic(auto, unfolding(count::specs::Count::class_count))]
    fn line_by_line(self) -> ClassCount
        ensures { result ≡ class_count self.order.panel self.order.entry self.order.exit }
    {
        if self.order.panel.width < self.order.panel.height {
            return self.turned().name_terminals();
        }
        self.name_terminals()
    }
}

fn shorter_side(p: Panel) -> u32
    ensures { result ≡ min p.width p.height }
{
    p.width.min(p.height)
}

// Class and count of two cells on a good panel. With more than 3 rows and columns only the colours
// matter, which are the same turned and in either order.
#[tactic(auto, using(count::proofs::Laws::class_by_colour))]
pub fn class_count(o: Order) -> ClassCount
    requires good_sides { GoodSides o.panel }
    requires on_panel { OnPanel o.panel o.entry }
    requires on_panel_2 { OnPanel o.panel o.exit }
    ensures { result ≡ class_count o.panel o.entry o.exit }
{
    if 3 < shorter_side(o.panel) {
        return by_colour(o);
    }
    Terminals { order: o }.line_by_line()
}

// Class and count of an order: equal terminals are class 6, tried before class 1.
#[tactic(auto, unfolding(count::specs::Order::order_class_count))]
pub fn order_class_count(o: Order) -> ClassCount
    requires good_sides { GoodSides o.panel }
    requires on_panel { OnPanel o.panel o.entry }
    requires on_panel_2 { OnPanel o.panel o.exit }
    ensures { result ≡ order_class_count o.panel o.entry o.exit }
{
    if o.entry == o.exit {
        return ClassCount {
            class: 6,
            count: Cells(1),
        };
    }
    // Taken apart, so that all answers stay in registers: if this one were handed on whole, they would go
    // through the memory that the call writes to.
    let ClassCount { class, count } = class_count(o);
    ClassCount { class, count }
}
