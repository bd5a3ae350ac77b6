// The rules that a stamp must pass, in their order.
ghost use Rattle.std.specs.Prelude.{◌≡◌, ◌≤◌, length, take};
ghost use Rattle.batches.specs.Batch.{Whole, well_listed};
ghost use Rattle.postage.specs.Rules.{error_number, in_bucket, in_slots, is_owner, judged, checked};
ghost use Rattle.postage.specs.declared.rules.StampError.TheVariants.{WrongLength};

use crate::lookup::find;
use answers::Numbered;
use batches::{DEPTH, ID, RECORD, check_batches};
use octets::number::read;
use std::array::TryFromSliceError;

// Why a stamp does not stand.
#[derive(Clone, Copy)]
pub enum StampError {
    BadList,
    WrongLength,
    NoBatch,
    OtherBucket,
    IndexPast,
    NotOwner,
}

impl Numbered for StampError {
    ghost number = { error_number };

    fn number(&self) -> u32 {
        match self {
            StampError::BadList => 15,
            StampError::WrongLength => 10,
            StampError::NoBatch => 16,
            StampError::OtherBucket => 17,
            StampError::IndexPast => 18,
            StampError::NotOwner => 19,
        }
    }
}

impl From<TryFromSliceError> for StampError {
    ghost from_gives = { λ _ error. error ≡ WrongLength };

    fn from(_error: TryFromSliceError) -> StampError {
        StampError::WrongLength
    }
}

// Whether a stamp stands for a chunk's address, under the account that signed it.
#[tactic(auto, unfolding(crate::specs::Rules::rules, crate::specs::Rules::checked))]
pub fn check_stamp(
    batches: &[u8],
    address: &[u8],
    stamp: &[u8],
    account: &[u8],
) -> Result<(), StampError>
    ensures { result ≡ checked batches.now address.now stamp.now account.now }
{
    if !stands(batches, batches.len()) {
        return Err(StampError::BadList);
    }
    let address: &[u8; 32] = address.try_into()?;
    let stamp: &[u8; 113] = stamp.try_into()?;
    let account: &[u8; 20] = account.try_into()?;
    let batch = find(batches, &stamp[..ID]).ok_or(StampError::NoBatch)?;
    judge(batch, address, stamp, account)
}

// Whether the list is well formed as far as `end`. By its end, so that nothing but a length says that the whole list is checked.
fn stands(batches: &[u8], end: usize) -> bool
    requires { end ≤ length batches.now }
    ensures { result ≡ well_listed (take end batches.now) }
{
    check_batches(&batches[..end])
}

// Rules 17 to 19: the first that is broken answers.
fn judge(
    batch: &[u8; RECORD],
    address: &[u8; 32],
    stamp: &[u8; 113],
    account: &[u8; 20],
) -> Result<(), StampError>
    requires { Whole batch.now }
    ensures { result ≡ judged batch.now address.now stamp.now account.now }
{
    if !in_bucket(address, stamp) {
        return Err(StampError::OtherBucket);
    }
    // Index and account are asked before either answers: which comes first is said by the two tests alone.
    let below = in_slots(batch, stamp);
    let owned = is_owner(batch, account);
    if !below {
        return Err(StampError::IndexPast);
    }
    if !owned {
        return Err(StampError::NotOwner);
    }
    Ok(())
}

// Whether the stamp's bucket, all four bytes of it, is the address's.
#[tactic(auto, unfolding(crate::specs::Rules::in_bucket))]
fn in_bucket(address: &[u8; 32], stamp: &[u8; 113]) -> bool
    ensures { result ≡ in_bucket address.now stamp.now }
{
    read::<u32>(stamp, 32) == u32::from(read::<u16>(address, 0))
}

// Whether the stamp's index is below the slots of a bucket.
#[tactic(auto, unfolding(crate::specs::Stamp::slots_of, crate::specs::Rules::in_slots))]
fn in_slots(batch: &[u8; RECORD], stamp: &[u8; 113]) -> bool
    requires { Whole batch.now }
    ensures { result ≡ in_slots batch.now stamp.now }
{
    read::<u32>(stamp, 36) < 1 << (batch[DEPTH] - 16)
}

// Whether the batch is the account's.
#[tactic(auto, using(crate::proofs::Ruled::told_equal), unfolding(crate::specs::Rules::is_owner))]
fn is_owner(batch: &[u8; RECORD], account: &[u8; 20]) -> bool
    ensures { result ≡ is_owner batch.now account.now }
{
    account.as_slice() == &batch[ID..DEPTH]
}
