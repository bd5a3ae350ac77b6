// What the programs need of files and streams beyond std: as many bytes as there is room for, why a call failed, and which few are named.
#![tactic(auto)]

ghost use Rattle.std.specs.Prelude.{◌≡◌, ◌≤◌, IfOk, OnOk, length};
ghost use Rattle.streams.specs.Counts.{IsPrefixLen};
ghost use Rattle.verdict.specs.Count.{one_more};

use std::io;
use std::io::Read;
use verdict::count::one_more;

// How many of a kind are named before the rest are only counted.
const FEW: u64 = 10;

// Reads until the space is full, the input ends or a read fails, and answers how many bytes it put at the space's start.
pub fn read_full(reader: &mut impl Read, space: &mut [u8]) -> usize
    ensures { IsPrefixLen result space.new }
{
    let mut done = 0;
    let _ = fill(reader, space, &mut done);
    done
}

// The same of an input that is of no use where a read fails.
pub fn read_all(reader: &mut impl Read, space: &mut [u8]) -> io::Result<usize>
    ensures { IfOk result (λ n. IsPrefixLen n space.new) }
{
    let mut done = 0;
    fill(reader, space, &mut done)?;
    Ok(done)
}

// Reads behind the bytes that are done, and counts them up. No method of std fills a space and, where the input ends before, says how far it came.
fn fill(reader: &mut impl Read, space: &mut [u8], done: &mut usize) -> io::Result<()>
    requires { done.old ≤ length space.old }
    ensures { (done.new ≤ length space.new) × (length space.new ≡ length space.old) }
{
    while *done < space.len() {
        let more = reader.read(&mut space[*done..])?;
        if more == 0 {
            break;
        }
        *done += more;
    }
    Ok(())
}

// Counts one more of a kind, and names it where few came before it: what it is, its number, and what is wrong with it.
pub fn count_named(
    rt: &impl Print,
    count: &mut u64,
    what: &str,
    number: u64,
    fault: &str,
) -> io::Result<()>
    ensures { OnOk result (count.new ≡ one_more count.old) }
{
    if *count < FEW {
        println!(rt; "{what} {number} {fault}")?;
    }
    *count = one_more(*count);
    Ok(())
}

// Writes a line to standard error: what failed, as the caller names it, a colon and the system's words for the error. Where that
// fails too, nothing is said.
pub fn fail(rt: &(impl Eprint + AllocGlobal), what: &str, error: io::Error) {
    let _ = say_why(rt, what, error);
}

fn say_why(rt: &(impl Eprint + AllocGlobal), what: &str, error: io::Error) -> io::Result<()> {
    let text = format!(in rt.alloc(); "{error}")?;
    let words = words_alone(text.as_str());
    eprintln!(rt; "{what}: {words}")
}

// Without the error's number, which std puts behind the words.
fn words_alone(text: &str) -> &str {
    text.split_once(" (os error ")
        .map_or(text, |(words, _)| words)
}
