// Runs every case of a file that the second program wrote, with the proved code, and says of each call how many are equal.
#![tactic(auto)]

mod books;
mod case;
mod chunks;
mod hashes;
mod laid;
mod run;
mod stamps;
mod tally;
mod trial;

use std::fs::File;
use std::io;
use streams::fail;

// What a call hands back is laid in `came`, which takes any buffer that a case can hold, and what stands before it.
fn main(rt: HostRuntime) -> io::Result<()> {
    let mut space = [0u8; 65536];
    let mut came = [0u8; 65600];
    let path = "cases.bin";
    let mut file = match File::open(&rt, path) {
        Ok(file) => file,
        Err(error) => {
            fail(&rt, path, error);
            return println!(rt; "No case was run, since {path} cannot be opened");
        }
    };
    run::over(&rt, &mut file, &mut space, &mut came)?.report(&rt)?;
    if run::goes_on(&mut file) {
        println!(rt; "The file goes on behind its last case")?;
    }
    Ok(())
}
