// What a program says of two things, and of four machines: the words that it prints stand on these answers.
#![tactic(auto)]

pub mod count;
pub mod equal;
pub mod machines;
