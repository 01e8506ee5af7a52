// The operations of the C entries over bytes: columns are decoded into arrays, and the operation run. An inner crate: its callers meet what it
// asks.
#![tactic(auto)]

pub mod any_value;
pub mod element;
pub mod list;
pub mod two_lists;
