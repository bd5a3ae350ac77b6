// The tree over a chunk's data. Every hash takes the prefix before its message: none for a plain tree, the anchor for an anchored one.
#![tactic(auto)]

ghost use Rattle.std.specs.Prelude.{◌≡◌, ◌-◌, ◌≤◌, length};
ghost use Rattle.merkle.specs.Tree.{pad_to, width, root};
ghost use Rattle.merkle.specs.Zeros.{ZeroRoots};
ghost use Rattle.tree.specs.Root.{hash_of, root_of};

use keccak::Sponge;

// The hash of a message that is handed over in two parts.
pub fn hash(prefix: &[u8], first: &[u8], second: &[u8]) -> [u8; 32]
    ensures { result ≡ hash_of prefix.now first.now second.now }
{
    Sponge::new()
        .absorb(prefix)
        .absorb(first)
        .absorb(second)
        .finish()
}

// The root of a part of a level. The bytes that the part lacks at its end count as zeros, and are never written out.
#[tactic(auto, using(merkle::proofs::Stretch::pad_cut), unfolding(crate::specs::Root::root_of))]
pub fn root_of(prefix: &[u8], part: &[u8], level: usize) -> [u8; 32]
    ensures { result ≡ root_of prefix.now level part.now }
{
    if 7 < level {
        return [0u8; 32];
    }
    let whole = width(level);
    let end = part.len().min(whole);
    let zeros = zero_roots(prefix, whole - end);
    root(prefix, &part[..end], level, &zeros)
}

// The root of a part calls itself on the part's left and right half. Where a half has no byte left, its root stands in the table.
fn root(prefix: &[u8], part: &[u8], level: usize, zeros: &[[u8; 32]; 8]) -> [u8; 32]
    requires level_bound { (level ≤ 7) × (length part.now ≤ width level) }
    requires zero_roots { ZeroRoots prefix.now (width level - length part.now) zeros.now }
    ensures { result ≡ root prefix.now level (pad_to (width level) part.now) }
{
    if part.is_empty() {
        return zeros[level];
    }
    if level == 0 {
        return padded(part);
    }
    let below = level - 1;
    let (first, second) = part.split_at(part.len().min(width(below)));
    let left = root(prefix, first, below, zeros);
    let right = root(prefix, second, below, zeros);
    hash(prefix, &left, &right)
}

// The roots of parts that are all zeros, from the leaf upward and no further than the bytes that are lacking have room for. The halves of
// such a part have one root, so each costs one hash. By level, since a pass over the table would have to carry the root below.
fn zero_roots(prefix: &[u8], lack: usize) -> [[u8; 32]; 8]
    requires { lack ≤ 4096 }
    ensures { ZeroRoots prefix.now lack result }
{
    let mut zeros = [[0u8; 32]; 8];
    for level in 0..7 {
        if lack < width(level + 1) {
            break;
        }
        zeros[level + 1] = hash(prefix, &zeros[level], &zeros[level]);
    }
    zeros
}

// One segment, with zeros behind it.
fn padded(part: &[u8]) -> [u8; 32]
    requires { length part.now ≤ 32 }
    ensures { result ≡ pad_to 32 part.now }
{
    let mut out = [0u8; 32];
    out[..part.len()].copy_from_slice(part);
    out
}

// The bytes of a part of a level.
fn width(level: usize) -> usize
    requires { level ≤ 7 }
    ensures { result ≡ width level }
{
    32 << level
}
