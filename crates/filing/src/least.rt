// The depth that a book rises to: how many records lie how near, and the least depth at which they fit.
ghost use Rattle.std.specs.Prelude.{◌∷◌, ◌≡◌, ◌≤◌, length, drop};
ghost use Rattle.settling.specs.Tally.{least, Counters};
ghost use Rattle.book.specs.Shape.{shape_in};
ghost use Rattle.filing.specs.Least.{rising, least_in};

use crate::whole::parts;
use book::header::{capacity, depth};
use nearing::near::near;

// The least depth above its own at which the records of a book, the given one counted, fit; 17 where there is none. Bytes that do not
// hold what their header counts, and a given part that is no record, have 17 too. A number, since `least_in` promises one of every input:
// of a book whose depth byte is past 16 the next one.
pub fn least_depth(book: &[u8], given: &[u8]) -> usize
    ensures { result ≡ least_in book.now given.now }
{
    let Some(given) = given.as_array() else {
        return 17;
    };
    let Some((header, records)) = parts(book) else {
        return 17;
    };
    let counters = tally(header, records, given);
    lowest(counters, capacity(header), usize::from(depth(header)) + 1)
}

// The same where a book can rise to it; None where there is none, past 16.
pub fn rising_depth(book: &[u8], given: &[u8]) -> Option<u8>
    ensures { result ≡ rising (least_in book.now given.now) }
{
    let least = least_depth(book, given);
    if least <= 16 { Some(least as u8) } else { None }
}

// How many of the records, the given one counted, share exactly 0, 1, .. 16 bits with the overlay.
#[tactic(auto, using(crate::proofs::Counting::near_few))]
fn tally(header: &[u8; 48], records: &[[u8; 145]], given: &[u8; 145]) -> [usize; 17]
    requires { length records.now ≤ 65536 }
    ensures { Counters (shape_in header.now) result (given.now ∷ records.now) }
{
    let mut counters = [0; 17];
    for held in records {
        counters[near(header, held)] += 1;
    }
    counters[near(header, given)] += 1;
    counters
}

// The least depth from `from` on at which the counted records fit, found from the greatest down; `from` or 17 where there is none.
// By the depth itself, which is the answer: `.iter().enumerate().skip(from).rev()` says the same at greater length.
fn lowest(counters: [usize; 17], capacity: usize, from: usize) -> usize
    ensures { result ≡ least capacity from (drop from counters) }
{
    let mut kept = 0;
    for depth in (from..17).rev() {
        if capacity - kept < counters[depth] {
            return depth + 1;
        }
        kept += counters[depth];
    }
    from
}
