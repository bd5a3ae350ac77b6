// What a case comes to.
use crate::case::split;
use crate::{books, chunks, hashes, stamps};
use verdict::equal::{Verdict, judged};

// The most fields that a case has.
const MOST: usize = 6;

// Runs the case: a call, how many fields it has, and those, the last of which is what is to come back. None where it is not understood.
pub(crate) fn tried(case: &[u8], came: &mut [u8]) -> Option<Verdict> {
    let [call, count, rest @ ..] = case else {
        return None;
    };
    let mut space = [case; MOST];
    let fields = space.get_mut(..usize::from(*count))?;
    split(rest, fields)?;
    let (expected, lent) = fields.split_last()?;
    let size = made(*call, lent, came)?;
    match came.get(..size) {
        Some(bytes) => Some(judged(expected, &bytes)),
        None => Some(Verdict::Differs),
    }
}

// Lays in `came` what the call hands back, and says how many bytes that is; none where no call has this number and just these fields.
// A call's number stands in the file; a type with a case for each call would name it three times, where its bytes are read, here and in
// the tally.
fn made(call: u8, fields: &[&[u8]], came: &mut [u8]) -> Option<usize> {
    match call {
        1 => hashes::keccak256(fields, came),
        2 => hashes::sponge(fields, came),
        3 => hashes::absorb(fields, came),
        4 => hashes::finish(fields, came),
        5 => chunks::address(fields, came),
        6 => chunks::anchored_address(fields, came),
        7 => chunks::segment_count(fields, came),
        8 => chunks::segment(fields, came),
        9 => chunks::make_proof(fields, came),
        10 => chunks::check_proof(fields, came),
        11 => stamps::nearness(fields, came),
        12 => stamps::stamp_digest(fields, came),
        13 => stamps::check_stamp(fields, came),
        14 => books::open(fields, came),
        15 => books::check_book(fields, came),
        16 => books::higher(fields, came),
        17 => books::offer(fields, came),
        18 => books::draw(fields, came),
        _ => None,
    }
}
