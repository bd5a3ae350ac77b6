// The batch list: records one after another, and which bytes are a well-formed list.
#![tactic(auto)]

mod check;

pub use check::{DEPTH, ID, RECORD, check_batches};
