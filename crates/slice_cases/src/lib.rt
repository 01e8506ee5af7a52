// Cases F to K and P of the scope document, slice and element, each run and compared: a part of the program `cases`, which is
// checked in half the time beside it. `columns` serves the other cases too.
#![tactic(auto)]

pub mod columns;
pub mod extract;
pub mod slice;
