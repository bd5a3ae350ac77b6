// Books: opened, checked, and offered to; and the higher of two records.
ghost use Rattle.std.specs.Prelude.{◌≡◌};
ghost use Rattle.opening.specs.Open.{open_answer, open_bytes, open_number};
ghost use Rattle.wellformed.specs.Check.{checked, book_number};
ghost use Rattle.records.specs.Choice.{choice};
ghost use Rattle.reserve.specs.Offer.{offered};
ghost use Rattle.ramekinfold.specs.Part.{of_choice};

use crate::chunks::Part;
use answers::Numbered;
use records::rank::Choice;

#[unsafe(no_mangle)]
pub extern "C" fn rkf_open(
    book: &mut [u8],
    overlay: &[u8],
    capacity: u64,
    starting_depth: u64,
) -> u32
    ensures value { result ≡ open_number (open_answer book.old overlay.now capacity starting_depth) }
    ensures book_after { book.new ≡ open_bytes book.old overlay.now capacity starting_depth }
{
    opening::open::open(book, overlay, capacity, starting_depth).number()
}

#[unsafe(no_mangle)]
pub extern "C" fn rkf_check_book(book: &[u8]) -> u32
    ensures { result ≡ book_number (checked book.now) }
{
    wellformed::check::check_book(book).number()
}

// A host in another language holds both records, and is told which one is meant.
#[unsafe(no_mangle)]
pub extern "C" fn rkf_higher(first: &[u8], second: &[u8]) -> Part
    ensures { result ≡ of_choice (choice first.now second.now) }
{
    match records::rank::choose(first, second) {
        Choice::First => Part {
            start: 0,
            length: 145,
        },
        Choice::Second => Part {
            start: 1,
            length: 145,
        },
        Choice::Neither => Part {
            start: 0,
            length: 0,
        },
    }
}

#[unsafe(no_mangle)]
pub extern "C" fn rkf_offer(
    book: &mut [u8],
    batches: &[u8],
    address: &[u8],
    stamp: &[u8],
    account: &[u8],
) -> u32
    ensures value { result ≡ (offered book.old batches.now address.now stamp.now account.now).number }
    ensures book_after { book.new ≡ (offered book.old batches.now address.now stamp.now account.now).bytes }
{
    reserve::offer::offer(book, batches, address, stamp, account).number()
}
