// An offer to a book: address, stamp and the account that signed it.
ghost use Rattle.std.specs.Prelude.{◌≡◌, length};
ghost use Rattle.records.specs.Record.{record_of};
ghost use Rattle.reserve.specs.Answer.{filed_number, error_number, offer_number, of_stamp, of_book};
ghost use Rattle.reserve.specs.Offer.{offered};

use crate::enter::enter;
use answers::Numbered;
use book::header::overfull;
use moving::put;
use postage::{StampError, check_stamp};
use wellformed::check::{BookError, check_book};

// Where a record that is heard ends up: in the book, outside the depth that it rose to, or in a book that is overfull by it. Each of
// the three writes, and none is a lack, so that they are no Option.
#[derive(Clone, Copy)]
pub enum Filed {
    Kept,
    Dropped,
    Burst,
}

// Why an offer is refused.
#[derive(Clone, Copy)]
pub enum OfferError {
    WrongLength,
    NotWellFormed,
    Overfull,
    BadList,
    NoBatch,
    OtherBucket,
    IndexPast,
    NotOwner,
    Outside,
    Held,
    Outranked,
}

impl Numbered for Filed {
    ghost number = { filed_number };

    fn number(&self) -> u32 {
        match self {
            Filed::Kept => 0,
            Filed::Dropped => 2,
            Filed::Burst => 3,
        }
    }
}

impl Numbered for OfferError {
    ghost number = { error_number };

    fn number(&self) -> u32 {
        match self {
            OfferError::WrongLength => 10,
            OfferError::NotWellFormed => 13,
            OfferError::Overfull => 14,
            OfferError::BadList => 15,
            OfferError::NoBatch => 16,
            OfferError::OtherBucket => 17,
            OfferError::IndexPast => 18,
            OfferError::NotOwner => 19,
            OfferError::Outside => 20,
            OfferError::Held => 21,
            OfferError::Outranked => 22,
        }
    }
}

// What a stamp is refused for, its offer is refused for.
impl From<StampError> for OfferError {
    ghost from_gives = { λ error result. result ≡ of_stamp error };

    fn from(error: StampError) -> OfferError {
        match error {
            StampError::BadList => OfferError::BadList,
            StampError::WrongLength => OfferError::WrongLength,
            StampError::NoBatch => OfferError::NoBatch,
            StampError::OtherBucket => OfferError::OtherBucket,
            StampError::IndexPast => OfferError::IndexPast,
            StampError::NotOwner => OfferError::NotOwner,
        }
    }
}

// And so is any offer to bytes that are no book.
impl From<BookError> for OfferError {
    ghost from_gives = { λ error result. result ≡ of_book error };

    fn from(error: BookError) -> OfferError {
        match error {
            BookError::NotWellFormed => OfferError::NotWellFormed,
        }
    }
}

// An offer to any bytes: what is refused writes nothing. The book answers first, by its form and then by its state; then the stamp's checks.
pub fn offer(
    book: &mut [u8],
    batches: &[u8],
    address: &[u8],
    stamp: &[u8],
    account: &[u8],
) -> Result<Filed, OfferError>
    ensures number { offer_number result ≡ (offered book.old batches.now address.now stamp.now account.now).number }
    ensures bytes { book.new ≡ (offered book.old batches.now address.now stamp.now account.now).bytes }
{
    check_book(book)?;
    if overfull(book) {
        return Err(OfferError::Overfull);
    }
    check_stamp(batches, address, stamp, account)?;
    enter(book, record_of(address, stamp))
}

// The record of a chunk's address and its stamp.
fn record_of(address: &[u8], stamp: &[u8]) -> [u8; 145]
    requires { (length address.now ≡ 32) × (length stamp.now ≡ 113) }
    ensures { result ≡ record_of address.now stamp.now }
{
    let mut given = [0u8; 145];
    put(&mut given, 0, &stamp[0..48]);
    put(&mut given, 48, address);
    put(&mut given, 80, &stamp[48..113]);
    given
}
