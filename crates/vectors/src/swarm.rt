// The chunk address that the Swarm client bee publishes in its own tests.
use std::io;
use verdict::equal::same_digest;

const SPAN: [u8; 8] = [15, 0, 0, 0, 0, 0, 0, 0];

const ADDRESS: [u8; 32] = [
    0x27, 0x91, 0x3f, 0x1b, 0xdb, 0x6e, 0x8e, 0x52, 0xcb, 0xd5, 0xa5, 0xfd, 0x4a, 0xb5, 0x77, 0xc8,
    0x57, 0x28, 0x7e, 0xdf, 0x69, 0x69, 0xb4, 0x1e, 0xfe, 0x92, 0x6b, 0x51, 0xde, 0x0f, 0x4f, 0x23,
];

// Whether the 15 bytes under span 15, little-endian, have that address.
fn agrees() -> bool {
    chunk::address(&SPAN, b"greaterthanspan").is_ok_and(|digest| same_digest(&digest, &ADDRESS))
}

// One line, as for the hashes.
pub(crate) fn report(rt: &impl Print) -> io::Result<()> {
    if agrees() {
        println!(rt; "Chunk addresses: 1 equal, 0 differ")
    } else {
        println!(rt; "Chunk addresses: 0 equal, 1 differ")
    }
}
