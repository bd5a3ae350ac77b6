// What a rise does to the bytes of a book: the depth that it rises to, and the records that stay.
#![tactic(auto)]

pub mod keep;
pub mod least;
mod whole;
