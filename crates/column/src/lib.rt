// List and value columns as they are lent, and outputs as they are written, slot by slot. The columns ask nothing of their callers; what reads
// and writes them is an inner crate.
#![tactic(auto)]

pub mod elements;
pub mod lists;
pub mod offsets;
pub mod rows;
