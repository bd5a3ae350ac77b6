// A book's bytes, edited in place: one record more; none at all.
ghost use Rattle.std.specs.Prelude.{◌≡◌};
ghost use Rattle.editing.specs.Edit.{added, burst_bytes};

use moving::{insert, write};

// The record `given`, put in at place `at` among the `count` records; those from there on move up. Where there is no such place, no room
// or no record, nothing changes: so `added` promises of each count and each place, which stay numbers beside the buffer.
#[tactic(auto, unfolding(crate::specs::Edit::added))]
pub fn add_record(book: &mut [u8], count: usize, at: usize, given: &[u8])
    ensures { book.new ≡ added book.old count at given.now }
{
    if count <= 65535 && at <= count && given.len() == 145 && 193 + 145 * count <= book.len() {
        insert(book, 48 + 145 * at, 48 + 145 * count, given);
        write(book, 44, (count + 1) as u32);
    }
}

// An overfull book: depth 16 and count 0, and no record's byte is left. Bytes without a header are left as they were.
pub fn burst(book: &mut [u8])
    ensures { book.new ≡ burst_bytes book.old }
{
    if let Some((header, records)) = book.split_first_chunk_mut::<48>() {
        header[5] = 1;
        header[7] = 16;
        write(header, 44, 0u32);
        records.fill(0);
    }
}
