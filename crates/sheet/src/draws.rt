// Fifteen distinct chunks.
use crate::stamped::{BOOK, ROOMY, offered, opened};
use crate::tally::Tally;
use answers::Numbered;
use book::record::record_at;
use chunk::address;
use draw::draw;
use octets::number::read;
use std::io;

// The span of a chunk of one byte.
const SPAN: [u8; 8] = [1, 0, 0, 0, 0, 0, 0, 0];

// A cell with one byte of data.
const CELL: usize = 11;

const FIFTEEN: usize = 15 * CELL;

const SIXTEEN: usize = 16 * CELL;

// Fifteen slots on a shelf of fifteen cells, then sixteen, since a chunk that holds two slots stands twice on the shelf and makes one pair.
pub(crate) fn run(rt: &impl Print, tally: &mut Tally) -> io::Result<()> {
    let mut book = opened();
    keep(&mut book);
    let answer = drawn(&book, &shelf::<FIFTEEN>(&book));
    tally.add(rt, "Fifteen distinct chunks", 26, answer)?;
    offered(&mut book, ROOMY, chunk_address(0), 15, 0);
    let answer = drawn(&book, &shelf::<SIXTEEN>(&book));
    tally.add(
        rt,
        "Fifteen distinct chunks, one of them in two slots",
        26,
        answer,
    )
}

// Offers the fifteen chunks. The time is the chunk's own byte, by which the shelf finds it again.
fn keep(book: &mut [u8; BOOK]) {
    for byte in 0..15u8 {
        offered(
            book,
            ROOMY,
            chunk_address(byte),
            u32::from(byte),
            u64::from(byte),
        );
    }
}

// The address of the chunk whose data is this byte.
fn chunk_address(byte: u8) -> [u8; 32] {
    address(&SPAN, &[byte]).unwrap_or([0u8; 32])
}

// What a draw answers.
fn drawn(book: &[u8], shelf: &[u8]) -> u32 {
    let anchor = [0u8; 32];
    let mut sample = [0u8; 1024];
    draw(book, shelf, &anchor, &mut sample).number()
}

// The chunks in record order, as many as there is room for.
fn shelf<const ROOM: usize>(book: &[u8; BOOK]) -> [u8; ROOM] {
    let mut shelf = [0u8; ROOM];
    for (i, space) in shelf.chunks_exact_mut(CELL).enumerate() {
        let byte = (read::<u64>(record_at(book, i), 40) % 256) as u8;
        space.copy_from_slice(&cell(byte));
    }
    shelf
}

// Span, length and data of the chunk whose data is this byte.
fn cell(byte: u8) -> [u8; CELL] {
    [1, 0, 0, 0, 0, 0, 0, 0, 0, 1, byte]
}
