// Hashes every Keccak-256 vector of a file, and a published chunk address, with the proved code, and says how many are equal.
#![tactic(auto)]

mod field;
mod line;
mod run;
mod swarm;
mod tally;
mod vector;

use std::fs::File;
use std::io;
use streams::fail;

fn main(rt: HostRuntime) -> io::Result<()> {
    run_file(&rt, "keccak256.txt")?;
    swarm::report(&rt)
}

// Runs the vectors of the file.
fn run_file(rt: &HostRuntime, path: &str) -> io::Result<()> {
    match File::open(rt, path) {
        Ok(mut file) => run::over(rt, path, &mut file)?.report(rt),
        Err(error) => {
            fail(rt, path, error);
            println!(rt; "No vector was run, since this file cannot be opened: {path}")
        }
    }
}
