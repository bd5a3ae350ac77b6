// The digest that a batch's owner signs.
ghost use Rattle.std.specs.Prelude.{◌≡◌, ◌++◌};
ghost use Rattle.keccak.specs.Hash.{keccak256};
ghost use Rattle.signing.specs.Digest.{error_number, signed, stamp_digest};
ghost use Rattle.signing.specs.declared.digest.DigestError.TheVariants.{WrongLength};

use answers::Numbered;
use keccak::Sponge;
use std::array::TryFromSliceError;

// Why there is no digest.
#[derive(Clone, Copy)]
pub enum DigestError {
    WrongLength,
}

impl Numbered for DigestError {
    ghost number = { error_number };

    fn number(&self) -> u32 {
        match self {
            DigestError::WrongLength => 10,
        }
    }
}

impl From<TryFromSliceError> for DigestError {
    ghost from_gives = { λ _ error. error ≡ WrongLength };

    fn from(_error: TryFromSliceError) -> DigestError {
        DigestError::WrongLength
    }
}

// The digest over a chunk's address and all of its stamp but the signature.
#[tactic(auto, unfolding(crate::specs::Digest::covered, crate::specs::Digest::owner_signs, crate::specs::Digest::stamp_digest))]
pub fn stamp_digest(address: &[u8], stamp: &[u8]) -> Result<[u8; 32], DigestError>
    ensures { result ≡ stamp_digest address.now stamp.now }
{
    let address: &[u8; 32] = address.try_into()?;
    let stamp: &[u8; 113] = stamp.try_into()?;
    let inner = hash(address, &stamp[..48]);
    Ok(signed(&inner))
}

// The hash that is signed for a digest: the 28 bytes that ERC-191 puts before it come first.
#[tactic(auto, unfolding(crate::specs::Digest::signed))]
fn signed(digest: &[u8; 32]) -> [u8; 32]
    ensures { result ≡ signed digest.now }
{
    hash(b"\x19Ethereum Signed Message:\n32", digest)
}

// The hash of two parts, joined.
fn hash(first: &[u8], second: &[u8]) -> [u8; 32]
    ensures { result ≡ keccak256 (first.now ++ second.now) }
{
    Sponge::new().absorb(first).absorb(second).finish()
}
