// A Keccak-256 vector: the digest that a line names first, and the message that the parts after it make.
ghost use Rattle.std.specs.Prelude.{◌≡◌, IfOk, Some};
ghost use Rattle.keccak.specs.Sponge.{usable, finished};

use crate::field::Stop;
use keccak::{Sponge, keccak256};
use std::mem;
use verdict::count::one_more;
use verdict::equal::{Verdict, judged, same_digest};

#[derive(Drop)]
pub(crate) struct Vector {
    // The line's first field.
    digest: Option<[u8; 32]>,
    // How many fields came behind it, and what absorbed them.
    parts: u64,
    sponge: Sponge,
    // False where the message is in one part and, hashed in one call, has another digest.
    agrees: bool,
}

// What a line that was hashed comes to, and how many parts its message came in.
#[derive(Clone, Copy)]
pub(crate) struct Hashed {
    pub(crate) verdict: Verdict,
    pub(crate) parts: u64,
}

impl Vector {
    // Before any field: the sponge is fresh.
    pub(crate) fn new() -> Vector {
        Vector {
            digest: None,
            parts: 0,
            sponge: Sponge::new(),
            agrees: true,
        }
    }

    // One field more. A digest has 32 bytes.
    pub(crate) fn add(&mut self, bytes: &[u8]) -> Result<(), Stop> {
        match self.digest {
            Some(digest) => self.add_part(digest, bytes),
            None => self.digest = Some(*bytes.as_array().ok_or(Stop::Wrong)?),
        }
        Ok(())
    }

    // A second part takes back what the first one said, since one call hashes one part.
    fn add_part(&mut self, digest: [u8; 32], part: &[u8]) {
        self.agrees = self.parts > 0 || same_digest(&keccak256(part), &digest);
        self.parts = one_more(self.parts);
        let sponge = mem::replace(&mut self.sponge, Sponge::new());
        self.sponge = sponge.absorb(part);
    }

    // Equal is said only where the hash is the digest.
    pub(crate) fn hashed(self) -> Result<Hashed, Stop>
        ensures { IfOk result (λ hashed. hashed.verdict ≡ Verdict.Equal → self.digest ≡ Some (finished (usable self.sponge))) }
    {
        let digest = self.digest.ok_or(Stop::Wrong)?;
        let parts = self.parts;
        if parts == 0 {
            return Err(Stop::Wrong);
        }
        let verdict = if self.agrees {
            judged(&digest, &self.sponge.finish())
        } else {
            Verdict::Differs
        };
        Ok(Hashed { verdict, parts })
    }
}
