// Moves inside a lent buffer: bytes put, cleared, moved and put in between others, and numbers written.
#![tactic(auto)]

mod edit;
mod number;

pub use edit::{clear, insert, lower, put, raise};
pub use number::write;
