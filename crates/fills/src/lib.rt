// What resize makes of one row. An inner crate: its callers meet what it asks.
#![tactic(auto)]

pub mod resize;
