// Runs document 01's settled examples that are not proved as a table, and says of each what was expected and what came.
#![tactic(auto)]

mod draws;
mod hashing;
mod listed;
mod proofs;
mod rises;
mod stamped;
mod tally;

use std::io;
use tally::Tally;

// In document 01's order: the prose on hashing, the sheet, the book of the listing.
fn main(rt: HostRuntime) -> io::Result<()> {
    let mut tally = Tally::new();
    hashing::run(&rt, &mut tally)?;
    rises::run(&rt, &mut tally)?;
    draws::run(&rt, &mut tally)?;
    proofs::run(&rt, &mut tally)?;
    listed::run(&rt, &mut tally)?;
    tally.report(&rt)
}
