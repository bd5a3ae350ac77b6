// Bytes that hold what their header counts.
ghost use Rattle.std.specs.Prelude.{◌≡◌, true, false, take, MatchOption};
ghost use Rattle.book.specs.Layout.{records_in};
ghost use Rattle.filing.specs.Whole.{whole};

use book::header::count;

// The header and the records that it counts, where all of them are there and no more are counted than a book holds.
pub(crate) fn parts(book: &[u8]) -> Option<(&[u8; 48], &[[u8; 145]])>
    ensures { MatchOption result (whole book.now ≡ false)
        (λ p. (whole book.now ≡ true) × (p.0.now ≡ take 48 book.now) × (p.1.now ≡ records_in book.now)) }
{
    let (header, behind) = book.split_first_chunk()?;
    let count = count(header);
    if 65536 < count {
        return None;
    }
    let records = behind.as_chunks().0.get(..count)?;
    Some((header, records))
}
