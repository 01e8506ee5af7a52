// What a slice makes of one row. An inner crate: its callers meet what it asks.
#![tactic(auto)]

pub mod strided;
