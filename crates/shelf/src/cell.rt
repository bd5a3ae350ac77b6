// A cell at the head of what is left of the shelf.
ghost use Rattle.std.specs.Prelude.{◌≡◌, ◌+◌, ◌≤◌, length};
ghost use Rattle.shelf.specs.Cell.{own_address, size_in, cell_in};
ghost use Rattle.shelf.specs.Read.{cell_answer, pair_read, cell_read};

use moving::put;
use octets::number::read;

// How many bytes a sound cell takes on the shelf, and its pair.
#[derive(Drop)]
pub struct CellRead {
    pub size: usize,
    pub pair: [u8; 64],
}

// What is wrong with a cell.
#[derive(Clone, Copy)]
pub enum CellError {
    ShelfEnds,
    TooLong,
    Mismatch,
}

// The cell at the head of `rest` against its record's address, and its pair under `anchor`.
#[tactic(auto, using(crate::proofs::Cells::wholes), unfolding(crate::specs::Read::cell_read))]
pub fn read_cell(rest: &[u8], recorded: &[u8], anchor: &[u8]) -> Result<CellRead, CellError>
    ensures { result ≡ cell_read rest.now recorded.now anchor.now }
{
    cell_answer(rest, recorded)?;
    let size = 10 + read::<u16>(rest, 8) as usize;
    let pair = pair(rest, size, recorded, anchor);
    Ok(CellRead { size, pair })
}

// What is wrong with the cell, if anything, where its record has this address: its length comes first, then whether its data is there, then
// whether it hashes to that address.
#[tactic(auto, using(crate::proofs::Cells::reads), unfolding(crate::specs::Read::cell_answer))]
fn cell_answer(rest: &[u8], recorded: &[u8]) -> Result<(), CellError>
    ensures { result ≡ cell_answer recorded.now rest.now }
{
    if rest.len() < 10 {
        return Err(CellError::ShelfEnds);
    }
    let size = read::<u16>(rest, 8) as usize;
    if 4096 < size {
        return Err(CellError::TooLong);
    }
    let end = 10 + size;
    if rest.len() < end {
        return Err(CellError::ShelfEnds);
    }
    let own = chunk::address(&rest[..8], &rest[10..end]).unwrap();
    if own.as_slice() == recorded {
        Ok(())
    } else {
        Err(CellError::Mismatch)
    }
}

// The cell's pair. Its address is its record's, so that only the anchored one is left to hash.
fn pair(rest: &[u8], size: usize, recorded: &[u8], anchor: &[u8]) -> [u8; 64]
    requires { (size ≡ 10 + size_in rest.now) × ((size ≤ length rest.now) × (own_address (cell_in rest.now) ≡ recorded.now)) }
    ensures { result ≡ pair_read anchor.now (cell_in rest.now) }
{
    let anchored = chunk::anchored_address(anchor, &rest[..8], &rest[10..size]).unwrap_or(
        [0u8; 32],
    );
    let mut joined = [0u8; 64];
    put(&mut joined, 0, &anchored);
    put(&mut joined, 32, recorded);
    joined
}
