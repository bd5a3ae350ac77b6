// Records of 145 bytes: their slots and rank, and the choice between two.
#![tactic(auto)]

pub mod rank;
