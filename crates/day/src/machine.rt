// One machine: it hears offers, keeps its book by them, and draws at noon.
use crate::shelved::Shelf;
use crate::stock::{Morning, OFFER, Place};
use answers::Numbered;
use book::header::{count, depth};
use draw::{DrawError, draw};
use keccak::keccak256;
use opening::open::open;
use reserve::offer::{Filed, OfferError, offer};
use verdict::count::one_more;

// How many records a book has room for.
pub(crate) const CAPACITY: u64 = 24;

// A header of 48 bytes, and 145 for each record.
const BOOK: usize = 3528;

// One more than the largest answer to an offer.
const ANSWERS: usize = 23;

// The first answer of a refusal.
const REFUSED: usize = 10;

// A machine at noon.
#[derive(Clone, Copy)]
pub(crate) struct Machine {
    pub name: char,
    pub heard: usize,
    pub missed: usize,
    // How many offers had each answer.
    answers: [u64; ANSWERS],
    pub records: usize,
    pub depth: u8,
    // Of the book's bytes.
    pub digest: [u8; 32],
    pub drawn: Result<[u8; 32], DrawError>,
}

impl Machine {
    // The machine that heard these offers.
    pub(crate) fn at_noon(name: char, morning: &Morning, heard: &[Place]) -> Machine {
        let mut book = [0u8; BOOK];
        let mut answers = [0u64; ANSWERS];
        // Nothing is refused here: the sizes are those that a book of this capacity asks.
        let _ = open(&mut book, morning.overlay, CAPACITY, 0);
        hear(&mut book, &mut answers, morning, heard);
        Machine {
            name,
            heard: heard.len(),
            missed: morning.missed(heard),
            answers,
            records: count(&book),
            depth: depth(&book),
            digest: keccak256(&book),
            drawn: drawn(&book, morning),
        }
    }

    // How many offers had an answer.
    pub(crate) fn answered(&self, answer: impl Numbered + Drop) -> u64 {
        let number = answer.number() as usize;
        self.answers.get(number).copied().unwrap_or(0)
    }

    // How many offers changed nothing.
    pub(crate) fn refused(&self) -> u64 {
        self.answers[REFUSED..]
            .iter()
            .fold(0, |sum: u64, n| sum.saturating_add(*n))
    }
}

// What the draw from a book comes to.
fn drawn(book: &[u8], morning: &Morning) -> Result<[u8; 32], DrawError> {
    let shelf = Shelf::of(book, morning);
    let mut sample = [0u8; 1024];
    draw(book, shelf.cells(), morning.anchor, &mut sample)
}

// Offers the book what was heard, and counts the answers.
fn hear(book: &mut [u8], answers: &mut [u64], morning: &Morning, heard: &[Place]) {
    for place in heard {
        let answer = offered(book, morning, *place);
        if let Some(count) = answers.get_mut(answer.number() as usize) {
            *count = one_more(*count);
        }
    }
}

// What comes of the offer at a place. Where there is none, nothing of it came.
fn offered(book: &mut [u8], morning: &Morning, place: Place) -> Result<Filed, OfferError> {
    let bytes = morning.offer(place).ok_or(OfferError::WrongLength)?;
    let stamp = arrived(&bytes[32..145], bytes[165]);
    offer(book, morning.batches, &bytes[..32], stamp, &bytes[145..165])
}

// What is left of a stamp that lost some of its last bytes.
fn arrived(stamp: &[u8], lost: u8) -> &[u8] {
    &stamp[..stamp.len().saturating_sub(lost as usize)]
}
