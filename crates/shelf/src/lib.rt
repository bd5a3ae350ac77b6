// The shelf: one chunk on it, read against its record.
#![tactic(auto)]

mod cell;

pub use cell::{CellError, CellRead, read_cell};
