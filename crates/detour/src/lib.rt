// An edit of a drawing. Its meaning and the theorems about it are in specs/ and proofs/; there is no code.
#![tactic(auto)]

// A bulge makes a step a detour, a press makes a detour a step again.
#[derive(Clone, Copy, Debug, PartialEq, Eq)]
pub enum Kind {
    Bulge,
    Press,
}

// The side of the way that a detour is on.
#[derive(Clone, Copy, Debug, PartialEq, Eq)]
pub enum Side {
    Left,
    Right,
}

// An edit at a place of the list, counted from 1.
#[derive(Clone, Copy, Debug, PartialEq, Eq)]
pub struct Edit {
    pub place: u32,
    pub kind: Kind,
    pub side: Side,
}
