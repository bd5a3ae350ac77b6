// The sample: the sixteen smallest pairs, and their commitment.
#![tactic(auto)]

mod commitment;
mod keeping;

pub use commitment::commit;
pub use keeping::enter;
