// Numbers of two, four and eight bytes, read from a buffer: big-endian, and little-endian where the name says so.
ghost use Rattle.std.specs.Prelude.{◌≡◌, ℕ};
ghost use Rattle.std.specs.Int.{w16, w32, w64, to_be_bytes};
ghost use Rattle.octets.specs.Written.{bytes_std};
ghost use Rattle.octets.specs.Number.{big_at, little_at, bytes_of, part_of};

use std::convert::AsSlice;

// A number that stands in bytes, the greatest first.
pub trait Number: Copy {
    // Those bytes, as an array.
    type Bytes: AsSlice<u8> + Drop;

    // How many they are.
    ghost width: { ℕ };

    // A number as one of this type, and back.
    ghost of: { ℕ → Self };

    ghost value: { Self → ℕ };

    ghost in_bytes: { Self → Self.Bytes };

    // The number that stands in the bytes of `s` from `at`, 0 where they are not there.
    fn read(s: &[u8], at: usize) -> Self
        ensures { result ≡ of (big_at width s.now at) };

    // Its own bytes.
    fn bytes(self) -> Self::Bytes
        ensures { result ≡ in_bytes self };

    ghost are_its_bytes: { (n : Self) → Self.Bytes.items (in_bytes n) ≡ bytes_of width (value n) };
}

// std has no trait over `from_be_bytes` and `to_be_bytes`, so each type names its own.
impl Number for u16 {
    type Bytes = [u8; 2];

    ghost width = { 2 };

    ghost of = { λ n. n };

    ghost value = { λ n. n };

    ghost in_bytes = { to_be_bytes w16 };

    ghost are_its_bytes = { bytes_std 2 };

    fn read(s: &[u8], at: usize) -> u16 {
        u16::from_be_bytes(part(s, at).unwrap_or([0; 2]))
    }

    fn bytes(self) -> [u8; 2] {
        u16::to_be_bytes(self)
    }
}

impl Number for u32 {
    type Bytes = [u8; 4];

    ghost width = { 4 };

    ghost of = { λ n. n };

    ghost value = { λ n. n };

    ghost in_bytes = { to_be_bytes w32 };

    ghost are_its_bytes = { bytes_std 4 };

    fn read(s: &[u8], at: usize) -> u32 {
        u32::from_be_bytes(part(s, at).unwrap_or([0; 4]))
    }

    fn bytes(self) -> [u8; 4] {
        u32::to_be_bytes(self)
    }
}

impl Number for u64 {
    type Bytes = [u8; 8];

    ghost width = { 8 };

    ghost of = { λ n. n };

    ghost value = { λ n. n };

    ghost in_bytes = { to_be_bytes w64 };

    ghost are_its_bytes = { bytes_std 8 };

    fn read(s: &[u8], at: usize) -> u64 {
        u64::from_be_bytes(part(s, at).unwrap_or([0; 8]))
    }

    fn bytes(self) -> [u8; 8] {
        u64::to_be_bytes(self)
    }
}

// The number that stands in the bytes of `s` from `at`, 0 where they are not there.
pub fn read<T: Number>(s: &[u8], at: usize) -> T
    ensures { result ≡ T.of (big_at T.width s.now at) }
{
    T::read(s, at)
}

// The N bytes of `s` from `at`, where they are there.
fn part<const N: usize>(s: &[u8], at: usize) -> Option<[u8; N]>
    ensures { result ≡ part_of N s.now at }
{
    s.get(at..)?.first_chunk().copied()
}

// The number that stands in the eight bytes of `s` from `at`, the least byte first, 0 where they are not there.
pub fn read_little64(s: &[u8], at: usize) -> u64
    ensures { result ≡ little_at 8 s.now at }
{
    u64::from_le_bytes(part(s, at).unwrap_or([0; 8]))
}
