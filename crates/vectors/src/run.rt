// A run over a file: its bytes go, as they come, into the open line, and each line at its end into the tally.
use crate::line::Line;
use crate::tally::Tally;
use std::io;
use std::io::Read;
use streams::fail;

// What the lines of the file come to. A line that a failure cuts short is not judged, and the last line may lack its own end.
pub(crate) fn over(
    rt: &(impl Print + Eprint + AllocGlobal),
    path: &str,
    file: &mut impl Read,
) -> io::Result<Tally> {
    let mut line = Line::new();
    let mut tally = Tally::new();
    let mut bytes = [0u8; 4096];
    // A proved loop has to end, and nothing says that a file does: the turns count down from a number that no run uses up.
    for _ in 0..u64::MAX {
        match file.read(&mut bytes) {
            Ok(0) => {
                if !line.is_empty() {
                    tally.add(rt, line.ended())?;
                }
                break;
            }
            Ok(n) => fed(rt, &bytes[..n], &mut line, &mut tally)?,
            Err(error) => {
                fail(rt, path, error);
                println!(rt; "The file could not be read to its end")?;
                break;
            }
        }
    }
    Ok(tally)
}

// The bytes of one read.
fn fed(rt: &impl Print, bytes: &[u8], line: &mut Line, tally: &mut Tally) -> io::Result<()> {
    for &byte in bytes {
        if byte == b'\n' {
            tally.add(rt, line.ended())?;
        } else {
            line.step(byte);
        }
    }
    Ok(())
}
