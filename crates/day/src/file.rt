// The files that the day is read from.
use std::fs::File;
use std::rt::Files;
use streams::{fail, read_full};

// Reads a file of records of one size into a space. Where it cannot be used, the reader is told why.
pub(crate) fn load<'a>(
    rt: &(impl Files + Eprint + AllocGlobal),
    path: &str,
    size: usize,
    space: &'a mut [u8],
) -> Option<&'a [u8]> {
    let mut file = match File::open(rt, path) {
        Ok(file) => file,
        Err(error) => {
            fail(rt, path, error);
            blame(rt, path, "cannot be opened");
            return None;
        }
    };
    let length = read_full(&mut file, space);
    // A file that fills the space may go on.
    if length == 0 || length == space.len() || size == 0 || length % size != 0 {
        blame(
            rt,
            path,
            "is damaged: its length is not that of whole records",
        );
        return None;
    }
    Some(&space[..length])
}

// Names a file and says what is wrong with it.
pub(crate) fn blame(rt: &impl Eprint, path: &str, fault: &str) {
    let _ = eprintln!(rt; "The day cannot be run, since the file {path} {fault}.");
}
