// Chunks: addresses, segments, and proofs.
ghost use Rattle.std.specs.Prelude.{◌≡◌, [], length};
ghost use Rattle.chunk.specs.Answer.{addressed, anchored_addressed};
ghost use Rattle.proving.specs.Answer.{made_number, made, written};
ghost use Rattle.verifying.specs.Answer.{checked_number, checked};
ghost use Rattle.merkle.specs.Segment.{segment_count, segment_start, segment_of};
ghost use Rattle.merkle.specs.Proof.{proof_of};
ghost use Rattle.ramekinfold.specs.Digested.{of_addressed};
ghost use Rattle.ramekinfold.specs.Part.{part};

use crate::hashing::{Digested, handed};
use answers::Numbered;

// A stretch of a lent buffer.
#[repr(C)]
#[derive(Drop)]
pub struct Part {
    pub start: u64,
    pub length: u64,
}

#[unsafe(no_mangle)]
pub extern "C" fn rkf_address(span: &[u8], data: &[u8]) -> Digested
    ensures { result ≡ of_addressed (addressed [] span.now «data».now) }
{
    handed(chunk::address(span, data))
}

#[unsafe(no_mangle)]
pub extern "C" fn rkf_anchored_address(anchor: &[u8], span: &[u8], data: &[u8]) -> Digested
    ensures { result ≡ of_addressed (anchored_addressed anchor.now span.now «data».now) }
{
    handed(chunk::anchored_address(anchor, span, data))
}

#[unsafe(no_mangle)]
pub extern "C" fn rkf_segment_count(data: &[u8]) -> u64
    ensures { result ≡ segment_count (length «data».now) }
{
    segments::segment_count(data) as u64
}

// A host in another language is handed the stretch by its place: a pointer back would be the host's own to check.
#[unsafe(no_mangle)]
pub extern "C" fn rkf_segment(data: &[u8], index: u64) -> Part
    ensures { result ≡ part (segment_start (length «data».now) index) (length (segment_of «data».now index)) }
{
    let start = segments::segment_start(data, index);
    let found = segments::segment(data, index);
    Part {
        start: start as u64,
        length: found.len() as u64,
    }
}

#[unsafe(no_mangle)]
pub extern "C" fn rkf_make_proof(span: &[u8], data: &[u8], index: u64, proof: &mut [u8]) -> u32
    ensures value { result ≡ made_number (made span.now «data».now index proof.old) }
    ensures proof_after { proof.new ≡ written (made span.now «data».now index proof.old) (proof_of [] span.now «data».now index) proof.old }
{
    proving::make_proof(span, data, index, proof).number()
}

#[unsafe(no_mangle)]
pub extern "C" fn rkf_check_proof(address: &[u8], index: u64, proof: &[u8]) -> u32
    ensures { result ≡ checked_number (checked [] address.now index proof.now) }
{
    verifying::check_proof(address, index, proof).number()
}
