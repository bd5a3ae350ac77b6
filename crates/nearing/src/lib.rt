// How near a record lies to a book's overlay.
#![tactic(auto)]

pub mod near;
