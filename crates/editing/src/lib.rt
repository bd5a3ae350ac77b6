// A book's bytes, edited in place.
#![tactic(auto)]

pub mod edit;
