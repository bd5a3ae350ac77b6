// Addresses, plain and anchored.
ghost use Rattle.std.specs.Prelude.{◌≡◌, []};
ghost use Rattle.merkle.specs.Tree.{address_of};
ghost use Rattle.chunk.specs.Answer.{error_number, addressed, anchored_addressed};

use answers::Numbered;
use tree::{hash, root_of};

// Why there is no address.
#[derive(Clone, Copy)]
pub enum AddressError {
    WrongLength,
    TooLong,
}

impl Numbered for AddressError {
    ghost number = { error_number };

    fn number(&self) -> u32 {
        match self {
            AddressError::WrongLength => 10,
            AddressError::TooLong => 12,
        }
    }
}

// The address of a chunk.
pub fn address(span: &[u8], data: &[u8]) -> Result<[u8; 32], AddressError>
    ensures { result ≡ addressed [] span.now «data».now }
{
    address_over(b"", span, data)
}

// The anchored address of a chunk.
#[tactic(auto, unfolding(crate::specs::Answer::anchored_addressed))]
pub fn anchored_address(anchor: &[u8], span: &[u8], data: &[u8]) -> Result<[u8; 32], AddressError>
    ensures { result ≡ anchored_addressed anchor.now span.now «data».now }
{
    if anchor.len() != 32 {
        return Err(AddressError::WrongLength);
    }
    address_over(anchor, span, data)
}

// Addressing over a prefix.
#[tactic(auto, unfolding(crate::specs::Answer::addressed))]
fn address_over(prefix: &[u8], span: &[u8], data: &[u8]) -> Result<[u8; 32], AddressError>
    ensures { result ≡ addressed prefix.now span.now «data».now }
{
    if span.len() != 8 {
        return Err(AddressError::WrongLength);
    }
    if 4096 < data.len() {
        return Err(AddressError::TooLong);
    }
    Ok(digest(prefix, span, data))
}

// The hash of span, then root.
#[tactic(auto, using(tree::proofs::Within::root_within), unfolding(merkle::specs::Tree::address_of))]
fn digest(prefix: &[u8], span: &[u8], data: &[u8]) -> [u8; 32]
    ensures { result ≡ address_of prefix.now span.now «data».now }
{
    let top = root_of(prefix, data, 7);
    hash(prefix, span, &top)
}
