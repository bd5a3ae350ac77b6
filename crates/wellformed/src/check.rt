// Whether bytes are a well-formed book: one pass.
ghost use Rattle.std.specs.Prelude.{◌≡◌, ◌&&◌, ltb};
ghost use Rattle.records.specs.Record.{slot};
ghost use Rattle.book.specs.Layout.{depth_in, overlay_in};
ghost use Rattle.wellformed.specs.Check.{labelled, sized, levelled, stands, all_stand, rises, zeros, checked, error_number};

use answers::Numbered;
use book::header::{capacity, count, depth, starting_depth};
use nearness::near::{bits, nearness};
use octets::number::read;
use octets::order::compare;

// What bytes that are no book are refused for.
#[derive(Clone, Copy)]
pub enum BookError {
    NotWellFormed,
}

impl Numbered for BookError {
    ghost number = { error_number };

    fn number(&self) -> u32 {
        match self {
            BookError::NotWellFormed => 13,
        }
    }
}

// Whether `book` is a well-formed book.
pub fn check_book(book: &[u8]) -> Result<(), BookError>
    ensures { result ≡ checked book.now }
{
    let Some((header, behind)) = book.split_first_chunk() else {
        return Err(BookError::NotWellFormed);
    };
    let records = count(header);
    if !is_labelled(header)
        || !is_sized(book.len(), capacity(header), records)
        || !is_levelled(header[5], starting_depth(header), depth(header), records)
    {
        return Err(BookError::NotWellFormed);
    }
    let (held, left) = behind.split_at(145 * records);
    if !records_stand(held.as_chunks().0, header) || !is_zero(left) {
        return Err(BookError::NotWellFormed);
    }
    Ok(())
}

// Whether mark and version are a book's.
fn is_labelled(header: &[u8; 48]) -> bool
    ensures { result ≡ labelled header.now }
{
    header.starts_with(b"RSV") && read::<u16>(header, 3) == 1
}

// Whether length, capacity and count agree.
#[tactic(auto, unfolding(crate::specs::Check::sized))]
fn is_sized(size: usize, capacity: usize, count: usize) -> bool
    ensures { result ≡ sized size capacity count }
{
    (16..=65536).contains(&capacity) && size == 48 + 145 * capacity && count <= capacity
}

// Whether state and depths are within their bounds; an overfull book has depth 16 and count 0.
#[tactic(auto, unfolding(crate::specs::Check::levelled))]
fn is_levelled(state: u8, starting: u8, depth: u8, count: usize) -> bool
    ensures { result ≡ levelled state starting depth count }
{
    state <= 1 && starting <= depth && depth <= 16 && (state == 0 || (depth == 16 && count == 0))
}

// Whether each record stands and each slot is below the next one's: both in one pass over the bytes.
fn records_stand(records: &[[u8; 145]], header: &[u8; 48]) -> bool
    ensures { result ≡ (rises records.now && all_stand (depth_in header.now) (overlay_in header.now) records.now) }
{
    for (i, held) in records.iter().enumerate() {
        let rises = records.get(i + 1).is_none_or(|next| is_below(held, next));
        if !rises || !record_stands(held, header) {
            return false;
        }
    }
    true
}

// Whether one record's bucket, index and nearness are within their bounds.
fn record_stands(held: &[u8; 145], header: &[u8; 48]) -> bool
    ensures { result ≡ stands (depth_in header.now) (overlay_in header.now) held.now }
{
    read::<u32>(held, 32) == u32::from(read::<u16>(held, 48))
        && read::<u32>(held, 36) < 16777216
        && u32::from(depth(header)) <= bits(nearness(&held[48..80], &header[8..40]))
}

// Whether the slot of one record is below another's.
fn is_below(first: &[u8; 145], second: &[u8; 145]) -> bool
    ensures { result ≡ ltb (slot first.now) (slot second.now) }
{
    compare(&first[..40], &second[..40]).is_lt()
}

// Whether every byte of `s` is zero. All of them are joined and nothing ends the loop early, so that many go at a time.
fn is_zero(s: &[u8]) -> bool
    ensures { result ≡ zeros s.now }
{
    let mut joined = 0;
    for &byte in s {
        joined |= byte;
    }
    joined == 0
}
