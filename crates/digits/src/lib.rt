// Numbers in decimal and bytes in hex, as text.
#![tactic(auto)]

mod spelling;

pub use spelling::{Decimal, decimal_of, hex_of};
