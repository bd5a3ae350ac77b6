// Calls 5 to 10: addresses, segments, and segment proofs.
use crate::laid::{answered, digested, lent};
use moving::{put, write};
use octets::number::read;

pub(crate) fn address(fields: &[&[u8]], came: &mut [u8]) -> Option<usize> {
    let [span, data] = fields else {
        return None;
    };
    Some(digested(chunk::address(span, data), came))
}

pub(crate) fn anchored_address(fields: &[&[u8]], came: &mut [u8]) -> Option<usize> {
    let [anchor, span, data] = fields else {
        return None;
    };
    Some(digested(chunk::anchored_address(anchor, span, data), came))
}

pub(crate) fn segment_count(fields: &[&[u8]], came: &mut [u8]) -> Option<usize> {
    let [data] = fields else {
        return None;
    };
    write(came, 0, segments::segment_count(data) as u64);
    Some(8)
}

pub(crate) fn segment(fields: &[&[u8]], came: &mut [u8]) -> Option<usize> {
    let [data, index] = fields else {
        return None;
    };
    let index = read(index, 0);
    let part = segments::segment(data, index);
    write(came, 0, segments::segment_start(data, index) as u64);
    put(came, 8, part);
    Some(8 + part.len())
}

pub(crate) fn make_proof(fields: &[&[u8]], came: &mut [u8]) -> Option<usize> {
    let [span, data, index, proof] = fields else {
        return None;
    };
    let answer = proving::make_proof(span, data, read(index, 0), lent(proof, came, 4)?);
    Some(answered(&answer, came) + proof.len())
}

pub(crate) fn check_proof(fields: &[&[u8]], came: &mut [u8]) -> Option<usize> {
    let [address, index, proof] = fields else {
        return None;
    };
    let answer = verifying::check_proof(address, read(index, 0), proof);
    Some(answered(&answer, came))
}
