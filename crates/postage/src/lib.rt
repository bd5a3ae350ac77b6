// Postage: stamps, and the rules that a stamp must pass.
#![tactic(auto)]

mod lookup;
mod rules;

pub use rules::{StampError, check_stamp};
