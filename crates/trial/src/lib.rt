// What the programs that try the calls share. Their output is compared, not proved, so the functions
// here are proved safe and ending, and promise nothing but what a program's own safety needs.
#![tactic(auto)]

pub mod cells;
pub mod numbers;
pub mod plain;
pub mod print;
pub mod times;

// The usual pitch, in micrometres: for panels whose pitch does not matter.
pub const PITCH: u32 = 4000;
