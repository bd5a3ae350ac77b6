// The offer to a book in bytes.
#![tactic(auto)]

mod enter;
pub mod offer;
mod place;
