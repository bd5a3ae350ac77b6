// The records of a book, found where they stand.
ghost use Rattle.std.specs.Prelude.{◌≡◌};
ghost use Rattle.book.specs.Layout.{record_in};

use crate::header::count;

// Record `i` of those that the header counts, from 0; no bytes where there is none. A book cut short gives what is left of it.
pub fn record_at(book: &[u8], i: usize) -> &[u8]
    ensures { result.now ≡ record_in book.now i }
{
    if count(book) <= i {
        return &[];
    }
    let at = 48 + 145 * i;
    &book[book.len().min(at)..book.len().min(at + 145)]
}
