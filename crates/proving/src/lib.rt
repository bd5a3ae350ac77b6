// Segment proofs made, plain and anchored.
#![tactic(auto)]

mod making;

pub use making::{MakeError, make_anchored_proof, make_proof};
