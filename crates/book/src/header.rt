// The numbers in a book's header, each 0 where the book is too short to have it. Each has its name here: one function over the place would hand the
// layout to every caller.
ghost use Rattle.std.specs.Prelude.{◌≡◌, eqb, get_or};
ghost use Rattle.octets.specs.Number.{big_at};
ghost use Rattle.book.specs.Layout.{state_in, starting_in, depth_in};

use octets::number::read;

// Whether the book says that it is overfull.
pub fn overfull(book: &[u8]) -> bool
    ensures { result ≡ eqb (state_in book.now) 1 }
{
    byte(book, 5) == 1
}

// The depth that the book was opened with.
pub fn starting_depth(book: &[u8]) -> u8
    ensures { result ≡ starting_in book.now }
{
    byte(book, 6)
}

// The depth below which no record is held.
pub fn depth(book: &[u8]) -> u8
    ensures { result ≡ depth_in book.now }
{
    byte(book, 7)
}

// How many records there is room for.
pub fn capacity(book: &[u8]) -> usize
    ensures { result ≡ big_at 4 book.now 40 }
{
    read::<u32>(book, 40) as usize
}

// How many records there are.
pub fn count(book: &[u8]) -> usize
    ensures { result ≡ big_at 4 book.now 44 }
{
    read::<u32>(book, 44) as usize
}

// The byte of `book` at `at`.
pub(crate) fn byte(book: &[u8], at: usize) -> u8
    ensures { result ≡ get_or book.now at 0 }
{
    book.get(at).copied().unwrap_or(0)
}
