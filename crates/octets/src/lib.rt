// Bytes: their order, and numbers in them.
#![tactic(auto)]

pub mod number;
pub mod order;
