// Signing: the digest that a batch's owner signs for a chunk's address and its stamp.
#![tactic(auto)]

mod digest;

pub use digest::{DigestError, stamp_digest};
