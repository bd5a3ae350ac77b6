// Which bytes are a well-formed book.
#![tactic(auto)]

pub mod check;
