// What document 01's prose on hashing says of a few messages.
use crate::tally::Tally;
use keccak::{Sponge, keccak256};
use std::io;

// Padding, parts, and a stale state.
pub(crate) fn run(rt: &impl Print, tally: &mut Tally) -> io::Result<()> {
    padding(rt, tally)?;
    parts(rt, tally)?;
    let stale = Sponge {
        lanes: [7u64; 25],
        place: 136,
    };
    tally.bytes(
        rt,
        "A hash state whose place is 136 counts as a fresh one",
        Sponge::new().finish(),
        stale.finish(),
    )
}

// The block that ends in 0x81, taken as a message, leaves the state whose first 32 bytes are the digest of its 135 bytes.
fn padding(rt: &impl Print, tally: &mut Tally) -> io::Result<()> {
    let message = [0x5au8; 135];
    let mut block = [0x5au8; 136];
    block[135] = 0x81;
    let permuted = Sponge::new().absorb(&block);
    tally.bytes(
        rt,
        "With 135 bytes in the last block the single padding byte is 0x81",
        first_lanes(permuted),
        keccak256(&message),
    )
}

// One message whole and in three parts, the second of which passes a block's end.
fn parts(rt: &impl Print, tally: &mut Tally) -> io::Result<()> {
    let first = [1u8; 10];
    let second = [2u8; 150];
    let third = [3u8; 40];
    let sponge = Sponge::new().absorb(&first).absorb(&second).absorb(&third);
    let mut joined = [1u8; 200];
    joined[10..160].copy_from_slice(&second);
    joined[160..].copy_from_slice(&third);
    tally.bytes(
        rt,
        "A message handed over as several parts hashes as the joined parts",
        keccak256(&joined),
        sponge.finish(),
    )
}

// The state's first 32 bytes, the low byte of a lane first.
fn first_lanes(sponge: Sponge) -> [u8; 32] {
    let mut bytes = [0u8; 32];
    for (eight, lane) in bytes.chunks_exact_mut(8).zip(&sponge.lanes) {
        eight.copy_from_slice(&lane.to_le_bytes());
    }
    bytes
}
