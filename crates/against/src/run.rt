// A run over the file: its count of cases, then the cases, each its length and so many bytes.
use crate::tally::Tally;
use crate::trial::tried;
use std::io;
use std::io::Read;
use streams::read_full;

// Every case that the file names, or those up to its end.
pub(crate) fn over(
    rt: &impl Print,
    file: &mut impl Read,
    space: &mut [u8],
    came: &mut [u8],
) -> io::Result<Tally> {
    let named = number(file).unwrap_or(0);
    let mut tally = Tally::new(u64::from(named));
    for _ in 0..named {
        let Some(case) = next(file, space) else {
            break;
        };
        let Some(call) = case.first() else {
            break;
        };
        tally.add(rt, *call, tried(case, came))?;
    }
    Ok(tally)
}

// Whether the file has a byte more.
pub(crate) fn goes_on(file: &mut impl Read) -> bool {
    let mut byte = [0u8; 1];
    read_full(file, &mut byte) > 0
}

// The number that comes next, of four bytes; none where the file ends.
fn number(file: &mut impl Read) -> Option<u32> {
    let mut bytes = [0u8; 4];
    if read_full(file, &mut bytes) < 4 {
        return None;
    }
    Some(u32::from_be_bytes(bytes))
}

// Reads the next case to the start of the space; none where the file ends or the case has no room.
fn next<'a>(file: &mut impl Read, space: &'a mut [u8]) -> Option<&'a [u8]> {
    let size = number(file)? as usize;
    let case = space.get_mut(..size)?;
    if read_full(file, case) < size {
        return None;
    }
    Some(case)
}
