// What replace and remove make of one row. An inner crate: its callers meet what it asks.
#![tactic(auto)]

pub mod remove;
pub mod replace;
