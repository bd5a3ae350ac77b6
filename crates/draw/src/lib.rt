// The draw: the shelf read against the book, the sixteen smallest pairs, and their commitment.
#![tactic(auto)]

mod answer;
mod drawing;
mod smallest;

pub use answer::{DrawError, place};
pub use drawing::draw;
