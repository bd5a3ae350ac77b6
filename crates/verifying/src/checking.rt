// Checking segment proofs, plain and anchored: the address that a proof leads to, against the one asked for.
ghost use Rattle.std.specs.Prelude.{◌≡◌, [], ◌%◌};
ghost use Rattle.octets.specs.Order.{byte_order};
ghost use Rattle.merkle.specs.Tree.{hash};
ghost use Rattle.merkle.specs.Proof.{paired, climbed, rebuilt};
ghost use Rattle.verifying.specs.Answer.{error_number, verdict, checked, anchored_checked};

use answers::Numbered;
use tree::hash;

// Why a proof is not one.
#[derive(Clone, Copy)]
pub enum CheckError {
    Fails,
    WrongLength,
    NoSegment,
}

impl Numbered for CheckError {
    ghost number = { error_number };

    fn number(&self) -> u32 {
        match self {
            CheckError::Fails => 1,
            CheckError::WrongLength => 10,
            CheckError::NoSegment => 11,
        }
    }
}

// Whether a proof leads from its segment, at that index, to the address.
pub fn check_proof(address: &[u8], index: u64, proof: &[u8]) -> Result<(), CheckError>
    ensures { result ≡ checked [] address.now index proof.now }
{
    check_over(b"", address, index, proof)
}

// The same in the anchored tree.
#[tactic(auto, unfolding(crate::specs::Answer::anchored_checked))]
pub fn check_anchored_proof(
    anchor: &[u8],
    address: &[u8],
    index: u64,
    proof: &[u8],
) -> Result<(), CheckError>
    ensures { result ≡ anchored_checked anchor.now address.now index proof.now }
{
    if anchor.len() != 32 {
        return Err(CheckError::WrongLength);
    }
    check_over(anchor, address, index, proof)
}

// Checking a proof over a prefix. What C hands over one by one stands in no struct.
#[tactic(auto, unfolding(crate::specs::Answer::checked))]
fn check_over(prefix: &[u8], address: &[u8], index: u64, proof: &[u8]) -> Result<(), CheckError>
    ensures { result ≡ checked prefix.now address.now index proof.now }
{
    let address: &[u8; 32] = address.as_array().ok_or(CheckError::WrongLength)?;
    let proof: &[u8; 264] = proof.as_array().ok_or(CheckError::WrongLength)?;
    if 127 < index {
        return Err(CheckError::NoSegment);
    }
    verdict(&rebuilt(prefix, index as usize, proof), address)
}

// A proof passes where the address that it leads to is the one asked for.
fn verdict(found: &[u8; 32], address: &[u8; 32]) -> Result<(), CheckError>
    ensures { result ≡ verdict (byte_order found.now address.now) }
{
    if found != address {
        return Err(CheckError::Fails);
    }
    Ok(())
}

// The address that a proof leads to.
#[tactic(auto, unfolding(merkle::specs::Proof::rebuilt))]
fn rebuilt(prefix: &[u8], index: usize, proof: &[u8; 264]) -> [u8; 32]
    ensures { result ≡ rebuilt prefix.now index proof.now }
{
    let top = climbed(prefix, index, proof);
    hash(prefix, &proof[256..264], &top)
}

// The root that the segment and its seven sisters lead to.
fn climbed(prefix: &[u8], index: usize, proof: &[u8; 264]) -> [u8; 32]
    ensures { result ≡ climbed prefix.now index proof.now 7 }
{
    let mut node = [0u8; 32];
    node.copy_from_slice(&proof[0..32]);
    for (level, sister) in proof[32..256].chunks_exact(32).enumerate() {
        node = above(prefix, index >> level, &node, sister);
    }
    node
}

// The node above node n and its sister: an even node stands left.
fn above(prefix: &[u8], n: usize, node: &[u8; 32], sister: &[u8]) -> [u8; 32]
    ensures { result ≡ hash prefix.now (paired (n % 2) node.now sister.now) }
{
    if n % 2 == 0 {
        return hash(prefix, node, sister);
    }
    hash(prefix, sister, node)
}
