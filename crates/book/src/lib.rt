// The book in bytes: its layout, the numbers of its header, its records, and the value that it stands for.
#![tactic(auto)]

pub mod header;
pub mod record;
