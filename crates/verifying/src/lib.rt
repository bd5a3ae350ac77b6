// Segment proofs checked, plain and anchored.
#![tactic(auto)]

mod checking;

pub use checking::{CheckError, check_anchored_proof, check_proof};
