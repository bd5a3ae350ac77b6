// Keccak-256: the Keccak team's sponge with its original padding.
#![tactic(auto)]

mod sponge;
mod words;

ghost use Rattle.std.specs.Prelude.{◌≡◌};
ghost use Rattle.keccak.specs.Hash.{keccak256};

pub use sponge::Sponge;

// The hash of a message in one part.
pub fn keccak256(message: &[u8]) -> [u8; 32]
    ensures { result ≡ keccak256 message.now }
{
    Sponge::new().absorb(message).finish()
}
