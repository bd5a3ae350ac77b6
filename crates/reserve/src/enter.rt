// A record that passed the stamp's checks, entered into a good book.
ghost use Rattle.std.specs.Prelude.{◌≤◌};
ghost use Rattle.book.specs.Layout.{capacity_in, count_in};
ghost use Rattle.reserve.specs.Answer.{offer_number};
ghost use Rattle.reserve.specs.Awaits.{Awaits, AwaitsAt, Unbeaten, Free, Ends};

use crate::offer::{Filed, OfferError};
use crate::place::place;
use book::header::{capacity, count, depth};
use book::record::record_at;
use editing::edit::{add_record, burst};
use filing::keep::keep_inside;
use filing::least::rising_depth;
use moving::put;
use nearing::near::near;
use records::rank::{Choice, choose};

// A record, and the place of its slot in a book.
#[derive(Drop)]
struct Claim {
    at: usize,
    given: [u8; 145],
}

// Outside the depth nothing is kept; else the record goes to its slot's place.
pub(crate) fn enter(book: &mut [u8], given: [u8; 145]) -> Result<Filed, OfferError>
    requires { Awaits book.old given }
    ensures { Ends book.old given (offer_number result) book.new }
{
    if near(book, &given) < depth(book) as usize {
        return Err(OfferError::Outside);
    }
    let at = place(book, &given);
    let claim = Claim { at, given };
    claim.file(book)
}

impl Claim {
    // At its slot's place a record contests the slot, where the higher rank stays, or is added.
    fn file(&self, book: &mut [u8]) -> Result<Filed, OfferError>
        requires { AwaitsAt book.old self.now.given self.now.at }
        ensures { Ends book.old self.now.given (offer_number result) book.new }
    {
        match choose(&self.given, record_at(book, self.at)) {
            Choice::First => self.replace(book),
            Choice::Second => Err(OfferError::Outranked),
            Choice::Neither => self.add(book),
        }
    }

    // Where the held record does not rank higher: it is this very one, or the given one takes its place.
    fn replace(&self, book: &mut [u8]) -> Result<Filed, OfferError>
        requires { Unbeaten book.old self.now.given self.now.at }
        ensures { Ends book.old self.now.given (offer_number result) book.new }
    {
        match choose(record_at(book, self.at), &self.given) {
            Choice::First => Err(OfferError::Held),
            Choice::Second => {
                put(book, 48 + 145 * self.at, &self.given);
                Ok(Filed::Kept)
            }
            Choice::Neither => Err(OfferError::Held),
        }
    }

    // For an empty slot a record is added, and if the count would pass capacity the depth rises.
    fn add(&self, book: &mut [u8]) -> Result<Filed, OfferError>
        requires { Free book.old self.now.given self.now.at }
        ensures { Ends book.old self.now.given (offer_number result) book.new }
    {
        let records = count(book);
        if records < capacity(book) {
            add_record(book, records, self.at, &self.given);
            return Ok(Filed::Kept);
        }
        self.rise(book)
    }

    // To the least depth at which the records fit, the new one counted; the others go.
    fn rise(&self, book: &mut [u8]) -> Result<Filed, OfferError>
        requires { Free book.old self.now.given self.now.at × (capacity_in book.old ≤ count_in book.old) }
        ensures { Ends book.old self.now.given (offer_number result) book.new }
    {
        let Some(least) = rising_depth(book, &self.given) else {
            burst(book);
            return Ok(Filed::Burst);
        };
        let own = near(book, &self.given);
        let before = keep_inside(book, self.at, least);
        if own < least as usize {
            return Ok(Filed::Dropped);
        }
        let all = count(book);
        add_record(book, all, before, &self.given);
        Ok(Filed::Kept)
    }
}
