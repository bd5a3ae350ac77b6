// The batch list: records one after another, strictly ascending by id.
ghost use Rattle.std.specs.Prelude.{◌≡◌, ◌&&◌, ◌+◌, ◌<◌, [], length, get_or, drop};
ghost use Rattle.batches.specs.Batch.{fit, precedes, below, ordered, well_listed};

use octets::order::compare;

// A record: the id comes first, then the owner, then the depth.
pub const ID: usize = 32;

pub const DEPTH: usize = 52;

pub const RECORD: usize = 53;

// Whether a list is well formed: whole records, each fit, each id below the next.
pub fn check_batches(batches: &[u8]) -> bool
    ensures { result ≡ well_listed batches.now }
{
    let (records, rest) = batches.as_chunks::<RECORD>();
    rest.is_empty() && in_order(records)
}

// Whether each record is fit and its id below the next one's: one walk, which the first record that is wrong ends. By place, since a record asks
// for its neighbour.
fn in_order(records: &[[u8; RECORD]]) -> bool
    ensures { result ≡ ordered records.now }
{
    for i in 0..records.len() {
        if !stands(records, i) {
            return false;
        }
    }
    true
}

// Whether the record at a place is fit, and its id below that of the next, if there is a next.
fn stands(records: &[[u8; RECORD]], place: usize) -> bool
    requires { place < length records.now }
    ensures { result ≡ (fit (get_or records.now place []) && below (get_or records.now place []) (drop (place + 1) records.now)) }
{
    if !is_fit(&records[place]) {
        return false;
    }
    let next = place + 1;
    if next == records.len() {
        return true;
    }
    is_below(&records[place], &records[next])
}

// Whether a record has a depth that a batch may have.
#[tactic(auto, unfolding(crate::specs::Batch::fit))]
fn is_fit(record: &[u8; RECORD]) -> bool
    ensures { result ≡ fit record.now }
{
    matches!(record[DEPTH], 17..=40)
}

// Whether a record's id is below the next one's.
fn is_below(record: &[u8; RECORD], next: &[u8; RECORD]) -> bool
    ensures { result ≡ precedes record.now next.now }
{
    compare(&record[..ID], &next[..ID]).is_lt()
}
