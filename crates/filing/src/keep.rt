// A book at a greater depth: without the records outside it.
ghost use Rattle.std.specs.Prelude.{List, ◌≡◌, ℕ, ◌+◌, ◌*◌, ◌≤◌, length, take};
ghost use Rattle.settling.specs.Book.{inside};
ghost use Rattle.book.specs.Shape.{shape_in};
ghost use Rattle.book.specs.Layout.{count_in, records_in};
ghost use Rattle.filing.specs.Keep.{Packed, refiled, kept_bytes, staying};

use crate::whole::parts;
use moving::{clear, lower, write};
use nearing::near::near;

// The records inside the depth at the front, in their order, zeros over the bytes of the others, and depth and count in the header: how
// many of the records before place `at` stay. Bytes that do not hold what their header counts are left as they were, for 0: that
// is a count, as `staying` promises, and no lack. The book's place and the count stay numbers, since `kept_bytes` promises of each, right or wrong.
pub fn keep_inside(book: &mut [u8], at: usize, depth: u8) -> usize
    ensures value { result ≡ staying book.old at depth }
    ensures book_after { book.new ≡ kept_bytes book.old depth }
{
    let Some((_, records)) = parts(book) else {
        return 0;
    };
    let count = records.len();
    close_up(book, count, at.min(count), depth)
}

// The same where they do.
fn close_up(book: &mut [u8], count: usize, at: usize, depth: u8) -> usize
    requires { (at ≤ count) × (count ≤ 65536) × (count ≡ count_in book.old) × (48 + 145 * count ≤ length book.old) }
    ensures value { result ≡ length (inside (shape_in book.old) depth (take at (records_in book.old))) }
    ensures book_after { book.new ≡ refiled book.old depth }
{
    let before = pack(book, 0, at, 0, depth);
    let all = pack(book, at, count, before, depth);
    clear(book, 48 + 145 * all, 145 * (count - all));
    book[7] = depth;
    write(book, 44, all as u32);
    before
}

// Of the records from place `from` up to `to` those inside the depth move down, in their order, behind the `kept` at the front.
// By places in the bytes: std's `as_chunks_mut` says nothing of what the buffer ends as, and memory is fixed, so that no list of records can be kept.
fn pack(book: &mut [u8], from: usize, to: usize, kept: usize, depth: u8) -> usize
    requires { (kept ≤ from) × (from ≤ to) × (48 + 145 * to ≤ length book.old) }
    ensures { (result ≤ to) × ((was : List ℕ) (count : ℕ) → to ≤ count → 48 + 145 * count ≤ length was
        → Packed was count depth book.old from kept → Packed was count depth book.new to result) }
{
    let mut front = kept;
    for i in from..to {
        let here = 48 + 145 * i;
        let shared = &book[..];
        if usize::from(depth) <= near(shared, &shared[here..here + 145]) {
            lower(book, here, 48 + 145 * front, 145);
            front += 1;
        }
    }
    front
}
