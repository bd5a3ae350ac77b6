// The listing: a book as text.
#![tactic(auto)]

mod field;
mod line;
pub mod text;
