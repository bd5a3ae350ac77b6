// Nearness: how many leading bits two 32-byte numbers share.
#![tactic(auto)]

pub mod near;
