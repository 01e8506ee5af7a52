// Which elements distinct, union and intersect keep, and which row intersect walks. An inner crate: its callers meet what it asks.
#![tactic(auto)]

pub mod distinct;
pub mod set_ops;
