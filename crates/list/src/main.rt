// Prints the listing of the book on standard input.
#![tactic(auto)]

use listing::text::list;
use streams::{fail, read_all};

// Lends room for one byte more than is listed, so that a longer input shows.
fn main(rt: HostRuntime) {
    let mut bytes = [0u8; 65537];
    match read_all(&mut rt.stdin(), &mut bytes) {
        Ok(length) => print(&rt, &bytes[..length]),
        Err(error) => fail(&rt, "standard input", error),
    }
}

// Writes the text for what was read.
fn print(rt: &(impl Print + Eprint + AllocGlobal), input: &[u8]) {
    let mut text = [0u8; 65536];
    let length = list(input, &mut text);
    if let Err(error) = rt.write_all(&text[..length]) {
        fail(rt, "standard output", error);
    }
}
