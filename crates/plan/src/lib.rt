// What a longest track is made of: legs, which are corner tracks, and plans, which are chains of them.
// The definitions and theorems about them are in specs/ and proofs/; the code that chooses a plan is the crate choice.
#![tactic(auto)]

use grid::Cell;

// A leg of a track: the corner track from the corner `a` of a rectangle to its cell `t`, `b` being
// the opposite corner; walked from `t` to `a` where `back` is set.
#[derive(Clone, Copy, Debug, PartialEq, Eq)]
pub struct Leg {
    pub a: Cell,
    pub b: Cell,
    pub t: Cell,
    pub back: bool,
}

// A chain of legs in disjoint rectangles, each starting beside the end of the one before.
#[derive(Clone, Copy, Debug, PartialEq, Eq)]
pub enum Plan {
    One(Leg),
    Two(Leg, Leg),
    Three(Leg, Leg, Leg),
    Five(Leg, Leg, Leg, Leg, Leg),
}
