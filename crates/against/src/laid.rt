// What calls hand back, laid where it is compared: an answer's number first, then a digest or the buffer that was lent.
ghost use Rattle.std.specs.Prelude.{◌≡◌};

use answers::Numbered;
use moving::{put, write};

// An answer's number, of four bytes.
pub(crate) fn answered(answer: &impl Numbered, came: &mut [u8]) -> usize
    ensures { result ≡ 4 }
{
    write(came, 0, answer.number());
    4
}

// A digest alone.
pub(crate) fn hashed(digest: [u8; 32], came: &mut [u8]) -> usize {
    put(came, 0, &digest);
    32
}

// A digest behind its number, zeros where there is none.
pub(crate) fn digested<E: Numbered + Drop>(found: Result<[u8; 32], E>, came: &mut [u8]) -> usize {
    let at = answered(&found, came);
    put(came, at, &found.unwrap_or([0u8; 32]));
    at + 32
}

// A copy to lend, behind the first `at` bytes; none where there is no room for it.
pub(crate) fn lent<'a>(bytes: &[u8], came: &'a mut [u8], at: usize) -> Option<&'a mut [u8]> {
    let copy = came.get_mut(at..)?.get_mut(..bytes.len())?;
    copy.copy_from_slice(bytes);
    Some(copy)
}
