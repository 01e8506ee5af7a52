// What union and intersect make of one pair of rows. An inner crate: its callers meet what it asks.
#![tactic(auto)]

pub mod runs;
pub mod set_ops;
