// Addresses of chunks, plain and anchored.
#![tactic(auto)]

mod addresses;

pub use addresses::{AddressError, address, anchored_address};
