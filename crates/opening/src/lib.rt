// Opening a book.
#![tactic(auto)]

pub mod open;
