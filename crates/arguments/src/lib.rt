// A row's arguments, taken from their columns. An inner crate: its callers meet what it asks.
#![tactic(auto)]

pub mod taken;
