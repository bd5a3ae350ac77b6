// Segment proofs at the last index and after it, and data that is too long.
use crate::tally::Tally;
use answers::Numbered;
use chunk::address;
use proving::make_proof;
use std::io;
use verifying::check_proof;

// A full chunk's span and data, and a byte more.
const SPAN: [u8; 8] = [0, 16, 0, 0, 0, 0, 0, 0];

const FULL: usize = 4096;

const LONGER: usize = 4097;

// Each index made and checked; the refused making leaves the proof of index 127.
pub(crate) fn run(rt: &impl Print, tally: &mut Tally) -> io::Result<()> {
    let mut proof = [0u8; 264];
    tally.add(rt, "Index 127 passes, made", 0, made(127, &mut proof))?;
    tally.add(rt, "Index 127 passes, checked", 0, checked(127, &proof))?;
    tally.add(rt, "128 gives, made", 11, made(128, &mut proof))?;
    tally.add(rt, "128 gives, checked", 11, checked(128, &proof))?;
    too_long(rt, tally)
}

// What making a full chunk's proof answers.
fn made(index: u64, proof: &mut [u8]) -> u32 {
    let data = [0x5au8; FULL];
    make_proof(&SPAN, &data, index, proof).number()
}

// What checking it against the chunk's address answers.
fn checked(index: u64, proof: &[u8]) -> u32 {
    let data = [0x5au8; FULL];
    let address = address(&SPAN, &data).unwrap_or([0u8; 32]);
    check_proof(&address, index, proof).number()
}

// What the address of a byte more, and making its proof, answer.
fn too_long(rt: &impl Print, tally: &mut Tally) -> io::Result<()> {
    let data = [0x5au8; LONGER];
    let mut proof = [0u8; 264];
    tally.add(
        rt,
        "4,097 bytes, address",
        12,
        address(&SPAN, &data).number(),
    )?;
    let answer = make_proof(&SPAN, &data, 0, &mut proof).number();
    tally.add(rt, "4,097 bytes, proof made", 12, answer)
}
