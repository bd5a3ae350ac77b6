// The pairs that a draw holds while it walks along the shelf.
ghost use Rattle.std.specs.Prelude.{◌≤◌};

// The smallest pairs so far, ascending in the front of `pairs`, 64 bytes to a pair, and how many they are: fixed room and a count, for want of a heap.
#[derive(Drop)]
pub(crate) struct Smallest {
    pub pairs: [u8; 1024],
    pub held: usize,
    ghost most: { held ≤ 16 },
}
