// Calls 1 to 4: the hash, and the sponge, whose bytes are 25 lanes and the place.
use crate::laid::hashed;
use keccak::Sponge;
use moving::write;
use octets::number::read;

pub(crate) fn keccak256(fields: &[&[u8]], came: &mut [u8]) -> Option<usize> {
    let [message] = fields else {
        return None;
    };
    Some(hashed(keccak::keccak256(message), came))
}

pub(crate) fn sponge(fields: &[&[u8]], came: &mut [u8]) -> Option<usize> {
    let [] = fields else {
        return None;
    };
    Some(laid(Sponge::new(), came))
}

pub(crate) fn absorb(fields: &[&[u8]], came: &mut [u8]) -> Option<usize> {
    let [sponge, part] = fields else {
        return None;
    };
    Some(laid(told(sponge).absorb(part), came))
}

pub(crate) fn finish(fields: &[&[u8]], came: &mut [u8]) -> Option<usize> {
    let [sponge] = fields else {
        return None;
    };
    Some(hashed(told(sponge).finish(), came))
}

// The sponge that these bytes say.
fn told(bytes: &[u8]) -> Sponge {
    let mut lanes = [0u64; 25];
    for (i, lane) in lanes.iter_mut().enumerate() {
        *lane = read(bytes, 8 * i);
    }
    Sponge {
        lanes,
        place: read::<u64>(bytes, 200) as usize,
    }
}

fn laid(sponge: Sponge, came: &mut [u8]) -> usize {
    for (i, lane) in sponge.lanes.iter().enumerate() {
        write(came, 8 * i, *lane);
    }
    write(came, 200, sponge.place as u64);
    208
}
