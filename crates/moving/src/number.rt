// Numbers of two, four and eight bytes, big-endian, written into a lent buffer.
ghost use Rattle.std.specs.Prelude.{◌≡◌};
ghost use Rattle.octets.specs.Number.{bytes_of};
ghost use Rattle.moving.specs.Moving.{placed};

use crate::edit::put;
use octets::number::Number;
use std::convert::AsSlice;

// `n` in its bytes, over those of `s` from `at`; nothing is written where they are not there, as `placed` promises of each place.
pub fn write<T: Number>(s: &mut [u8], at: usize, n: T)
    ensures { s.new ≡ placed s.old at (bytes_of T.width (T.value n)) }
{
    put(s, at, n.bytes().as_slice());
}
