// The operations, under the names and in the files of the Rust that they come from, on lists with offsets of 32 or of 64 bits. No public
// function asks anything of its caller.
// Beside each, under its name with _lengths, is what tells the lengths of the slices to lend for it: it refuses as the operation does
// before 9, and writes nothing.
#![tactic(auto)]

pub mod extract;
mod plain;
pub mod remove;
pub mod repeat;
pub mod replace;
pub mod resize;
pub mod reverse;
pub mod set_ops;
