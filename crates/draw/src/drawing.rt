// The draw itself.
ghost use Rattle.std.specs.Prelude.{◌≡◌, ◌+◌, ◌*◌, ◌≤◌, length, IfOk};
ghost use Rattle.book.specs.Layout.{count_in};
ghost use Rattle.shelf.specs.Read.{cell_answer};
ghost use Rattle.draw.specs.Draw.{sixteen_drawn, lent_answer, drawn, sample_after};
ghost use Rattle.draw.specs.Inside.{told, pairs_in, Taken, walk_answer};

use crate::answer::DrawError;
use crate::smallest::Smallest;
use book::header::{count, overfull};
use book::record::record_at;
use sample::{commit, enter};
use shelf::{CellError, read_cell};
use wellformed::check::check_book;

// The sample of `book`'s chunks under `anchor`, written over `sample`, and its commitment.
#[tactic(auto, using(crate::proofs::Handing::hands))]
pub fn draw(
    book: &[u8],
    shelf: &[u8],
    anchor: &[u8],
    sample: &mut [u8],
) -> Result<[u8; 32], DrawError>
    ensures result { result ≡ drawn book.now shelf.now anchor.now sample.old }
    ensures bytes { sample.new ≡ sample_after book.now shelf.now anchor.now sample.old }
{
    let anchor = lent(book, anchor, sample)?;
    let mut smallest = Smallest {
        pairs: [0u8; 1024],
        held: 0,
    };
    collect(book, shelf, anchor, &mut smallest)?;
    Ok(commit(sample, &smallest.pairs, smallest.held))
}

// The anchor, where nothing is wrong with the book or with a length.
#[tactic(auto, using(crate::proofs::Lending::lents))]
fn lent<'a>(book: &[u8], anchor: &'a [u8], sample: &[u8]) -> Result<&'a [u8; 32], DrawError>
    ensures answer { told result ≡ lent_answer book.now anchor.now sample.now }
    ensures anchor { IfOk result (λ a. a.now ≡ anchor.now) }
{
    check_book(book)?;
    if overfull(book) {
        return Err(DrawError::Overfull);
    }
    if sample.len() != 1024 {
        return Err(DrawError::WrongLength);
    }
    anchor.try_into().map_err(|_| DrawError::WrongLength)
}

// Each cell of `shelf` against its record, and the sixteen smallest pairs.
fn collect(
    book: &[u8],
    shelf: &[u8],
    anchor: &[u8; 32],
    smallest: &mut Smallest,
) -> Result<(), DrawError>
    requires book { (48 + 145 * count_in book.now ≤ length book.now) × (count_in book.now ≤ 65536) }
    requires none { smallest.old.held ≡ 0 }
    ensures answer { result ≡ walk_answer book.now shelf.now anchor.now }
    ensures kept { IfOk result (λ _. (smallest.new.held ≡ 16) × (pairs_in smallest.new ≡ sixteen_drawn book.now shelf.now anchor.now)) }
{
    let mut rest = shelf;
    // By place, since that is what a refusal names.
    for place in 0..count(book) {
        let record = record_at(book, place);
        // A record's address stands behind its slot and its time.
        let size = take_cell(rest, &record[48..80], anchor, smallest).map_err(
            |error| DrawError::of_cell(error, place as u32),
        )?;
        rest = &rest[size..];
    }
    if !rest.is_empty() {
        return Err(DrawError::Left);
    }
    if smallest.held < 16 {
        return Err(DrawError::TooFew);
    }
    Ok(())
}

// The cell at the head of `rest` against its record: how many bytes it takes, and its pair among the smallest.
#[tactic(auto, using(crate::proofs::Taking::cells))]
fn take_cell(
    rest: &[u8],
    recorded: &[u8],
    anchor: &[u8; 32],
    smallest: &mut Smallest,
) -> Result<usize, CellError>
    ensures answer { told result ≡ cell_answer recorded.now rest.now }
    ensures taken { IfOk result (Taken rest.now anchor.now smallest.old smallest.new) }
{
    let read = read_cell(rest, recorded, anchor)?;
    smallest.held = enter(&mut smallest.pairs, smallest.held, &read.pair);
    Ok(read.size)
}
