// Calls 14 to 18: books opened, checked, offered to and drawn from, and the choice between two records.
use crate::laid::{answered, lent};
use moving::{put, write};
use octets::number::read;

pub(crate) fn open(fields: &[&[u8]], came: &mut [u8]) -> Option<usize> {
    let [book, overlay, capacity, starting] = fields else {
        return None;
    };
    let copy = lent(book, came, 4)?;
    let answer = opening::open::open(copy, overlay, read(capacity, 0), read(starting, 0));
    Some(answered(&answer, came) + book.len())
}

pub(crate) fn check_book(fields: &[&[u8]], came: &mut [u8]) -> Option<usize> {
    let [book] = fields else {
        return None;
    };
    Some(answered(&wellformed::check::check_book(book), came))
}

pub(crate) fn higher(fields: &[&[u8]], came: &mut [u8]) -> Option<usize> {
    let [first, second] = fields else {
        return None;
    };
    let part = records::rank::higher(first, second);
    put(came, 0, part);
    Some(part.len())
}

pub(crate) fn offer(fields: &[&[u8]], came: &mut [u8]) -> Option<usize> {
    let [book, batches, address, stamp, account] = fields else {
        return None;
    };
    let copy = lent(book, came, 4)?;
    let answer = reserve::offer::offer(copy, batches, address, stamp, account);
    Some(answered(&answer, came) + book.len())
}

// Answer, place, commitment and sample.
pub(crate) fn draw(fields: &[&[u8]], came: &mut [u8]) -> Option<usize> {
    let [book, shelf, anchor, sample] = fields else {
        return None;
    };
    let drawn = draw::draw(book, shelf, anchor, lent(sample, came, 40)?);
    answered(&drawn, came);
    write(came, 4, draw::place(&drawn));
    put(came, 8, &drawn.unwrap_or([0u8; 32]));
    Some(40 + sample.len())
}
