// The arguments of a row, elements compared with them, and runs of elements copied. An inner crate: its callers meet what it asks.
#![tactic(auto)]

pub mod utils;

// An argument of a row: a null or a value.
pub type Cell = Option<i64>;

// What a row is filled with: nulls where no fill is lent, else the row's own.
pub type Fill = Option<Cell>;
