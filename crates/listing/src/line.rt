// The lines of a book, put behind what is written already.
ghost use Rattle.std.specs.Prelude.{◌≡◌, [], ◌∷◌, ◌++◌, ◌+◌, ◌*◌, ◌≤◌, ◌<◌, length, drop};
ghost use Rattle.octets.specs.Pieces.{pieces};
ghost use Rattle.book.specs.Layout.{state_in, overlay_in, count_in};
ghost use Rattle.digits.specs.Field.{decimal};
ghost use Rattle.listing.specs.Line.{space, line, state_word, header_line, record_line, record_lines};
ghost use Rattle.listing.specs.Put.{Added};

use crate::field::Text;
use book::header::{capacity, count, depth, overfull, starting_depth};
use nearness::near::{bits, nearness};
use octets::number::read;

// Line one.
pub(crate) fn put_header(text: &mut Text<'_>, book: &[u8])
    requires { (text.old.at + 126 < length text.old.out.now) × (48 ≤ length book.now) }
    ensures put { Added text.old (header_line book.now) text.new }
    ensures upper_bound { text.new.at ≤ text.old.at + 126 }
{
    text.field(&book[0..3], b' ');
    text.number(u64::from(read::<u16>(book, 3)), b' ');
    put_state(text, book);
    put_levels(
        text,
        starting_depth(book),
        depth(book),
        count(book),
        capacity(book),
    );
}

// The numbers that end line one.
fn put_levels(text: &mut Text<'_>, starting: u8, depth: u8, count: usize, capacity: usize)
    requires { text.old.at + 84 < length text.old.out.now }
    ensures put { Added text.old (line (decimal starting ∷ decimal depth ∷ decimal count ∷ decimal capacity ∷ [])) text.new }
    ensures upper_bound { text.new.at ≤ text.old.at + 84 }
{
    text.number(u64::from(starting), b' ');
    text.number(u64::from(depth), b' ');
    text.number(count as u64, b' ');
    text.number(capacity as u64, b'\n');
}

// The word for the state.
fn put_state(text: &mut Text<'_>, book: &[u8])
    requires { text.old.at + 8 < length text.old.out.now }
    ensures put { Added text.old (state_word (state_in book.now) ++ (space ∷ [])) text.new }
    ensures upper_bound { text.new.at ≤ text.old.at + 9 }
{
    if overfull(book) {
        text.field(b"overfull", b' ');
    } else {
        text.field(b"good", b' ');
    }
}

// A line for each of the first `count` records.
pub(crate) fn put_records(text: &mut Text<'_>, book: &[u8], count: usize)
    requires { (text.old.at + 126 * count < length text.old.out.now) × (48 + 145 * count ≤ length book.now) }
    ensures { Added text.old (record_lines (overlay_in book.now) (pieces 145 count (drop 48 book.now))) text.new }
{
    let overlay: &[u8; 32] = book[8..40].try_into().unwrap();
    let (records, _) = book[48..].as_chunks();
    for held in &records[..count] {
        put_record(text, held, overlay);
    }
}

// The line of one record.
fn put_record(text: &mut Text<'_>, held: &[u8; 145], overlay: &[u8; 32])
    requires { text.old.at + 126 < length text.old.out.now }
    ensures put { Added text.old (record_line overlay.now held.now) text.new }
    ensures upper_bound { text.new.at ≤ text.old.at + 126 }
{
    let bits = bits(nearness(&held[48..80], overlay));
    text.hex(held, 0, b' ');
    text.number(u64::from(read::<u32>(held, 32)), b' ');
    text.number(u64::from(read::<u32>(held, 36)), b' ');
    text.number(read(held, 40), b' ');
    text.hex(held, 48, b' ');
    text.number(u64::from(bits), b'\n');
}
