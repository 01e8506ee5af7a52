// What all C entries share: their own refusals by the sizes, what they read decoded, and answers as bytes. An inner crate: its callers meet what it asks.
#![tactic(auto)]

pub mod answers;
pub mod inputs;
pub mod sizes;
