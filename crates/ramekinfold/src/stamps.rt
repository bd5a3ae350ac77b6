// Stamps: the digest that an owner signs, and the rules.
ghost use Rattle.std.specs.Prelude.{◌≡◌};
ghost use Rattle.signing.specs.Digest.{stamp_digest};
ghost use Rattle.postage.specs.Rules.{stamp_number, checked};
ghost use Rattle.ramekinfold.specs.Digested.{of_stamp_digested};

use crate::hashing::{Digested, handed};
use answers::Numbered;

#[unsafe(no_mangle)]
pub extern "C" fn rkf_stamp_digest(address: &[u8], stamp: &[u8]) -> Digested
    ensures { result ≡ of_stamp_digested (stamp_digest address.now stamp.now) }
{
    handed(signing::stamp_digest(address, stamp))
}

#[unsafe(no_mangle)]
pub extern "C" fn rkf_check_stamp(
    batches: &[u8],
    address: &[u8],
    stamp: &[u8],
    account: &[u8],
) -> u32
    ensures { result ≡ stamp_number (checked batches.now address.now stamp.now account.now) }
{
    postage::check_stamp(batches, address, stamp, account).number()
}
