// Making segment proofs, plain and anchored: the segment, seven sisters from the leaf upward, the span.
ghost use Rattle.std.specs.Prelude.{◌≡◌, [], ◌+◌, ◌*◌, ◌<◌, ◌≤◌};
ghost use Rattle.merkle.specs.Tree.{pad_to, width};
ghost use Rattle.merkle.specs.Proof.{node, beside, proof_of};
ghost use Rattle.proving.specs.Answer.{error_number, made, anchored_made, written};

use answers::Numbered;
use tree::root_of;

// Why there is no proof.
#[derive(Clone, Copy)]
pub enum MakeError {
    WrongLength,
    TooLong,
    NoSegment,
}

impl Numbered for MakeError {
    ghost number = { error_number };

    fn number(&self) -> u32 {
        match self {
            MakeError::WrongLength => 10,
            MakeError::TooLong => 12,
            MakeError::NoSegment => 11,
        }
    }
}

// Writes the proof of a segment of a chunk, and nothing where it refuses.
pub fn make_proof(span: &[u8], data: &[u8], index: u64, proof: &mut [u8]) -> Result<(), MakeError>
    ensures value { result ≡ made span.now «data».now index proof.old }
    ensures proof_after { proof.new ≡ written result (proof_of [] span.now «data».now index) proof.old }
{
    make_over(b"", span, data, index, proof)
}

// The same in the anchored tree.
#[tactic(auto, unfolding(crate::specs::Answer::anchored_made))]
pub fn make_anchored_proof(
    anchor: &[u8],
    span: &[u8],
    data: &[u8],
    index: u64,
    proof: &mut [u8],
) -> Result<(), MakeError>
    ensures value { result ≡ anchored_made anchor.now span.now «data».now index proof.old }
    ensures proof_after { proof.new ≡ written result (proof_of anchor.now span.now «data».now index) proof.old }
{
    if anchor.len() != 32 {
        return Err(MakeError::WrongLength);
    }
    make_over(anchor, span, data, index, proof)
}

// Making a proof over a prefix. What C hands over one by one stands in no struct.
#[tactic(auto, unfolding(crate::specs::Answer::made))]
fn make_over(
    prefix: &[u8],
    span: &[u8],
    data: &[u8],
    index: u64,
    proof: &mut [u8],
) -> Result<(), MakeError>
    ensures value { result ≡ made span.now «data».now index proof.old }
    ensures proof_after { proof.new ≡ written result (proof_of prefix.now span.now «data».now index) proof.old }
{
    let span: &[u8; 8] = span.as_array().ok_or(MakeError::WrongLength)?;
    let proof: &mut [u8; 264] = proof.as_mut_array().ok_or(MakeError::WrongLength)?;
    if 4096 < data.len() {
        return Err(MakeError::TooLong);
    }
    if 127 < index {
        return Err(MakeError::NoSegment);
    }
    *proof = proof_of(prefix, span, data, index as usize);
    Ok(())
}

// The segment, its sisters and the span.
fn proof_of(prefix: &[u8], span: &[u8; 8], data: &[u8], index: usize) -> [u8; 264]
    requires { index < 128 }
    ensures { result ≡ proof_of prefix.now span.now «data».now index }
{
    let mut proof = [0u8; 264];
    proof[..32].copy_from_slice(&node(prefix, data, 0, index));
    // By level: no proof knows what a slice holds once a borrow by chunks_exact_mut is over.
    for level in 0..7 {
        let at = 32 + 32 * level;
        proof[at..at + 32].copy_from_slice(&node(prefix, data, level, beside(index >> level)));
    }
    proof[256..].copy_from_slice(span);
    proof
}

// Node n of a level of the tree: the root of that stretch of the caller's own data.
fn node(prefix: &[u8], data: &[u8], level: usize, n: usize) -> [u8; 32]
    requires { (level ≤ 7) × (n * width level + width level ≤ 4096) }
    ensures { result ≡ node prefix.now level n (pad_to 4096 «data».now) }
{
    let start = data.len().min(n * (32 << level));
    root_of(prefix, &data[start..], level)
}

// The node beside node n.
fn beside(n: usize) -> usize
    requires { n < 128 }
    ensures { result ≡ beside n }
{
    n + 1 - 2 * (n % 2)
}
