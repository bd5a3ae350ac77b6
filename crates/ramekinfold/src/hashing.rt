// Hashing. None of these refuses: any length is taken, and any state. Where there is an answer, it is 0.
ghost use Rattle.std.specs.Prelude.{◌≡◌};
ghost use Rattle.keccak.specs.Hash.{keccak256};
ghost use Rattle.keccak.specs.Sponge.{fresh, usable, absorbed, finished};
ghost use Rattle.ramekinfold.specs.Digested.{digested, of_digest};

use answers::Numbered;
use keccak::{Sponge, keccak256};

// An answer of document 01 with a digest beside it, zeros on a refusal: C has no Result.
#[repr(C)]
#[derive(Drop)]
pub struct Digested {
    pub answer: u32,
    pub digest: [u8; 32],
}

// What a call answers with a digest, as C holds it.
pub(crate) fn handed<E: Numbered + Drop>(answer: Result<[u8; 32], E>) -> Digested
    ensures { result ≡ of_digest E.number answer }
{
    Digested {
        answer: answer.number(),
        digest: answer.unwrap_or([0u8; 32]),
    }
}

#[unsafe(no_mangle)]
pub extern "C" fn rkf_keccak256(message: &[u8]) -> Digested
    ensures { result ≡ digested 0 (keccak256 message.now) }
{
    Digested {
        answer: 0,
        digest: keccak256(message),
    }
}

#[unsafe(no_mangle)]
pub extern "C" fn rkf_sponge() -> Sponge
    ensures { result ≡ fresh }
{
    Sponge::new()
}

#[unsafe(no_mangle)]
pub extern "C" fn rkf_absorb(sponge: Sponge, part: &[u8]) -> Sponge
    ensures { result ≡ absorbed (usable sponge) part.now }
{
    sponge.absorb(part)
}

#[unsafe(no_mangle)]
pub extern "C" fn rkf_finish(sponge: Sponge) -> Digested
    ensures { result ≡ digested 0 (finished (usable sponge)) }
{
    Digested {
        answer: 0,
        digest: sponge.finish(),
    }
}
