// The smallest pairs, kept ascending in a buffer of 1,024 bytes, 64 to a pair.
ghost use Rattle.std.specs.Prelude.{◌≡◌, ◌*◌, ◌≤◌, length};
ghost use Rattle.octets.specs.Pieces.{pieces};
ghost use Rattle.sample.specs.Kept.{held_after, best_after};
ghost use Rattle.sample.specs.Inside.{Belongs};

use moving::insert;
use octets::order::compare;
use std::cmp::Ordering;

// `pair` among the `held` pairs of `best`, once and in its place; the last of sixteen gives way. It hands back how many are held then.
// Nothing changes where a length is another, or more than sixteen are said to be held. `held_after` and `best_after` promise so of each buffer and
// each count, so that these stay two parameters, and the answer a count.
pub fn enter(best: &mut [u8], held: usize, pair: &[u8]) -> usize
    ensures result { result ≡ held_after pair.now held best.old }
    ensures bytes { best.new ≡ best_after pair.now held best.old }
{
    if best.len() != 1024 {
        return held;
    }
    if pair.len() != 64 {
        return held;
    }
    if 16 < held {
        return held;
    }
    let Some(place) = place_of(best, held, pair) else {
        return held;
    };
    if 15 < place {
        return held;
    }
    let last = held.min(15);
    insert(best, 64 * place, 64 * last, pair);
    last + 1
}

// Where `pair` belongs among the `held` pairs of `best`; nowhere where it is one of them.
fn place_of(best: &[u8], held: usize, pair: &[u8]) -> Option<usize>
    requires { 64 * held ≤ length best.now }
    ensures { Belongs result pair.now (pieces 64 held best.now) }
{
    let end = 64 * held;
    // Each arm does another thing, which no test of an Ordering says more plainly.
    for (place, other) in best[..end].chunks_exact(64).enumerate() {
        match compare(pair, other) {
            Ordering::Less => return Some(place),
            Ordering::Equal => return None,
            Ordering::Greater => {}
        }
    }
    Some(held)
}
