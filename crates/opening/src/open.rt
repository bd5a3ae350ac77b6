// Opening a book in a lent buffer.
ghost use Rattle.std.specs.Prelude.{◌≡◌, ◌+◌, ◌*◌, ◌≤◌, ◌++◌, length, drop, replicate};
ghost use Rattle.book.specs.Book.{write};
ghost use Rattle.opening.specs.Open.{in_range, fresh_book, open_answer, open_bytes, error_number};

use answers::Numbered;
use moving::{put, write};

// What an opening is refused for.
#[derive(Clone, Copy)]
pub enum OpenError {
    OutOfRange,
    WrongLength,
}

impl Numbered for OpenError {
    ghost number = { error_number };

    fn number(&self) -> u32 {
        match self {
            OpenError::OutOfRange => 27,
            OpenError::WrongLength => 10,
        }
    }
}

// A fresh book in `book`, over whatever stood there. The arguments are judged before any length.
#[tactic(auto, using(crate::proofs::Opening::in_range_lem))]
pub fn open(book: &mut [u8], overlay: &[u8], capacity: u64, starting: u64) -> Result<(), OpenError>
    ensures answer { result ≡ open_answer book.old overlay.now capacity starting }
    ensures bytes { book.new ≡ open_bytes book.old overlay.now capacity starting }
{
    if !in_range(capacity, starting) {
        return Err(OpenError::OutOfRange);
    }
    let Some(overlay) = overlay.as_array() else {
        return Err(OpenError::WrongLength);
    };
    if book.len() as u64 != 48 + 145 * capacity {
        return Err(OpenError::WrongLength);
    }
    write_fresh(book, overlay, capacity as u32, starting as u8);
    Ok(())
}

// Whether a book may have this capacity and this starting depth.
#[tactic(auto, unfolding(crate::specs::Open::in_range))]
fn in_range(capacity: u64, starting: u64) -> bool
    ensures { result ≡ in_range capacity starting }
{
    (16..=65536).contains(&capacity) && starting <= 16
}

// A fresh book's bytes: all zero but for mark, version, depths, overlay and capacity.
fn write_fresh(book: &mut [u8], overlay: &[u8; 32], capacity: u32, starting: u8)
    requires { length book.old ≡ 48 + 145 * capacity }
    ensures { book.new ≡ write (fresh_book overlay.now capacity starting) }
{
    let size = book.len();
    clear(book, size);
    put(book, 0, b"RSV");
    book[4] = 1;
    book[6] = starting;
    book[7] = starting;
    put(book, 8, overlay);
    write(book, 40, capacity);
}

// Zeros in the front, as far as `end`. By its end, so that nothing but a length says that the whole book is cleared.
fn clear(book: &mut [u8], end: usize)
    requires { end ≤ length book.old }
    ensures { book.new ≡ replicate end 0 ++ drop end book.old }
{
    book[..end].fill(0);
}
