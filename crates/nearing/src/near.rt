// How near a record lies to a book's overlay, up to 16 bits: its bucket is its address's first two bytes.
ghost use Rattle.std.specs.Prelude.{◌≡◌};
ghost use Rattle.nearing.specs.Near.{near_in};

use octets::number::read;

// The bits that a record shares with the overlay of a book; 0 where the one is no record or the other has no header: so `near_in`
// promises, and an Option would be asked for by nobody, since a book's records have their length.
#[tactic(auto, unfolding(crate::specs::Near::near_in))]
pub fn near(book: &[u8], given: &[u8]) -> usize
    ensures { result ≡ near_in book.now given.now }
{
    if book.len() < 48 || given.len() != 145 {
        return 0;
    }
    let apart = read::<u16>(given, 34) ^ read::<u16>(book, 8);
    apart.leading_zeros() as usize
}
