// The C face: thin functions for hosts in other languages. A slice is a pointer and a length; structs come back by value, so that
// a refusal has no lent place for a digest.
#![tactic(auto)]

mod books;
mod chunks;
mod draws;
mod hashing;
mod places;
mod stamps;
