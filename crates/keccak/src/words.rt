// Bytes in a lane, which is little-endian.
ghost use Rattle.std.specs.Prelude.{◌≡◌, ◌*◌, ◌%◌, ◌^◌};
ghost use Rattle.keccak.specs.Sponge.{digest_of};

// Byte b where byte n of the state stands in its lane.
pub(crate) fn placed(b: u8, n: usize) -> u64
    ensures { result ≡ b * 2 ^ (8 * (n % 8)) % 2 ^ 64 }
{
    (b as u64) << ((8 * (n % 8)) as u64)
}

// The first 32 bytes of the state.
pub(crate) fn digest(a: [u64; 25]) -> [u8; 32]
    ensures { result ≡ digest_of a }
{
    let words = [
        a[0].to_le_bytes(),
        a[1].to_le_bytes(),
        a[2].to_le_bytes(),
        a[3].to_le_bytes(),
    ];
    let mut out = [0u8; 32];
    out.copy_from_slice(words.as_flattened());
    out
}
