// The shared bits of two 32-byte numbers.
ghost use Rattle.std.specs.Prelude.{◌≡◌};
ghost use Rattle.nearness.specs.Bits.{shared_bits};
ghost use Rattle.nearness.specs.Near.{error_number, nearness_of, bits_in};
ghost use Rattle.nearness.specs.declared.near.NearError.TheVariants.{WrongLength};

use answers::Numbered;
use octets::number::read;
use std::array::TryFromSliceError;

// Why nothing is said of two byte strings: one of them is not 32 bytes long.
#[derive(Clone, Copy)]
pub enum NearError {
    WrongLength,
}

impl Numbered for NearError {
    ghost number = { error_number };

    fn number(&self) -> u32 {
        match self {
            NearError::WrongLength => 10,
        }
    }
}

impl From<TryFromSliceError> for NearError {
    ghost from_gives = { λ _ error. error ≡ WrongLength };

    fn from(_error: TryFromSliceError) -> NearError {
        NearError::WrongLength
    }
}

// How near two numbers of 32 bytes are.
#[tactic(auto, unfolding(crate::specs::Near::nearness_of))]
pub fn nearness(first: &[u8], second: &[u8]) -> Result<u32, NearError>
    ensures { result ≡ nearness_of first.now second.now }
{
    let first: &[u8; 32] = first.try_into()?;
    let second: &[u8; 32] = second.try_into()?;
    Ok(shared_bits(first, second))
}

// The bits beside the number handed back, 0 where there are none.
pub fn bits(near: Result<u32, NearError>) -> u32
    ensures { result ≡ bits_in near }
{
    near.unwrap_or(0)
}

// Leading zeros of the xor of 64-bit words, added until a word differs.
fn shared_bits(first: &[u8; 32], second: &[u8; 32]) -> u32
    ensures { result ≡ shared_bits first.now second.now }
{
    let mut bits = 0;
    for at in (0..32).step_by(8) {
        let apart = read::<u64>(first, at) ^ read::<u64>(second, at);
        if apart != 0 {
            return bits + apart.leading_zeros();
        }
        bits += 64;
    }
    bits
}
