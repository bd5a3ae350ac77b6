// The sponge is a value: each absorbing method takes it and hands it back, and a last one gives the digest.
ghost use Rattle.std.specs.Prelude.{◌≡◌, ◌%◌, ◌<◌};
ghost use Rattle.octets.specs.Bytes.{Bytes};
ghost use Rattle.keccak.specs.Sponge.{Sound, fresh, usable, absorbed, joined_parts, finished};

use crate::words::{digest, placed};
use permutation::permute;

const RATE: usize = 136;

// The lanes, and the place in the block where the next byte goes. Laid out as in C, since a host in another language may keep it.
#[repr(C)]
#[derive(Drop)]
pub struct Sponge {
    pub lanes: [u64; 25],
    pub place: usize,
}

impl Sponge {
    pub fn new() -> Self
        ensures { result ≡ fresh }
    {
        Sponge {
            lanes: [0u64; 25],
            place: 0,
        }
    }

    // A place that no block has counts as a fresh state, lanes and all.
    fn usable(self) -> Self
        ensures { (result ≡ usable self) × Sound result }
    {
        if self.place < RATE {
            self
        } else {
            Sponge::new()
        }
    }

    // Byte by byte: for what begins or ends inside a word.
    fn bytes(self, part: &[u8]) -> Self
        requires { self.place < 136 }
        ensures { result ≡ absorbed self part.now }
    {
        let mut lanes = self.lanes;
        let mut place = self.place;
        for &byte in part {
            lanes[place / 8] ^= placed(byte, place);
            place += 1;
            if place == RATE {
                lanes = permute(lanes);
                place = 0;
            }
        }
        Sponge { lanes, place }
    }

    // Eight bytes at a time, from a place where a word begins.
    fn words(self, words: &[[u8; 8]]) -> Self
        requires { Sound self × (self.place % 8 ≡ 0) × Bytes (joined_parts words.now) }
        ensures { result ≡ absorbed self (joined_parts words.now) }
    {
        let mut lanes = self.lanes;
        let mut place = self.place;
        for word in words {
            lanes[place / 8] ^= u64::from_le_bytes(*word);
            place += 8;
            if place == RATE {
                lanes = permute(lanes);
                place = 0;
            }
        }
        Sponge { lanes, place }
    }

    // The word that was begun is filled by bytes, whole words follow, and what is left goes in by bytes.
    pub fn absorb(self, part: &[u8]) -> Self
        ensures { result ≡ absorbed (usable self) part.now }
    {
        let s = self.usable();
        let lead = (8 - s.place % 8) % 8;
        if part.len() < lead {
            return s.bytes(part);
        }
        let (begun, rest) = part.split_at(lead);
        let (whole, left) = rest.as_chunks::<8>();
        s.bytes(begun).words(whole).bytes(left)
    }

    // The padding's two ends, 0x01 at the next place and 0x80 at the block's last, which meet as 0x81.
    pub fn finish(self) -> [u8; 32]
        ensures { result ≡ finished (usable self) }
    {
        let s = self.usable();
        let mut lanes = s.lanes;
        lanes[s.place / 8] ^= placed(0x01, s.place);
        lanes[16] ^= 0x8000000000000000;
        digest(permute(lanes))
    }
}
