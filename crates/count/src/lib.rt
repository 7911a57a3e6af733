// The class and the count of an order, as a value; what they are is defined in specs/Count.antt.
#![tactic(auto)]

use grid::Cells;

// The class of two terminals on a panel, and how many cells a longest track between them has.
#[derive(Clone, Copy, Debug, PartialEq, Eq)]
pub struct ClassCount {
    pub class: u32,
    pub count: Cells,
}
