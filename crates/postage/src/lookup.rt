// Looking a batch up in the list.
ghost use Rattle.std.specs.Prelude.{◌≡◌, true, [], MatchOption};
ghost use Rattle.batches.specs.Batch.{Whole, records, well_listed, find};

use batches::{ID, RECORD};
use octets::order::compare;

// The record with this id, by halving.
// It takes any bytes, and whole records of them alone; it is right where the list is well formed.
pub(crate) fn find<'a>(batches: &'a [u8], id: &[u8]) -> Option<&'a [u8; RECORD]>
    ensures { well_listed batches.now ≡ true → MatchOption result (find id.now (records batches.now) ≡ []) (λ batch. Whole batch.now × (batch.now ≡ find id.now (records batches.now))) }
{
    let (records, _) = batches.as_chunks::<RECORD>();
    let at = records
        .binary_search_by(|record| compare(&record[..ID], id))
        .ok()?;
    Some(&records[at])
}
