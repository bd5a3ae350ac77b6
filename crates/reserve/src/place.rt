// The place of a slot among the records of a book.
ghost use Rattle.records.specs.Record.{slot};
ghost use Rattle.book.specs.Layout.{WellFormed};
ghost use Rattle.reserve.specs.Place.{PlaceIn};

use book::header::count;
use octets::order::compare;

// How many records have a slot below that of `given`, found by halving.
pub(crate) fn place(book: &[u8], given: &[u8; 145]) -> usize
    requires { WellFormed book.now }
    ensures { PlaceIn book.now (slot given.now) result }
{
    let (places, _) = book[48..].as_chunks::<145>();
    let records = &places[..count(book)];
    records.partition_point(|record| compare(&record[..40], &given[..40]).is_lt())
}
