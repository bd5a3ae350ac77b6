// Calls 11 to 13: nearness, stamp digests, and stamps.
use crate::laid::{answered, digested};
use moving::write;
use nearness::near::bits;

pub(crate) fn nearness(fields: &[&[u8]], came: &mut [u8]) -> Option<usize> {
    let [first, second] = fields else {
        return None;
    };
    let near = nearness::near::nearness(first, second);
    let at = answered(&near, came);
    write(came, at, bits(near));
    Some(at + 4)
}

pub(crate) fn stamp_digest(fields: &[&[u8]], came: &mut [u8]) -> Option<usize> {
    let [address, stamp] = fields else {
        return None;
    };
    Some(digested(signing::stamp_digest(address, stamp), came))
}

pub(crate) fn check_stamp(fields: &[&[u8]], came: &mut [u8]) -> Option<usize> {
    let [batches, address, stamp, account] = fields else {
        return None;
    };
    let answer = postage::check_stamp(batches, address, stamp, account);
    Some(answered(&answer, came))
}
