// Where a chunk belongs.
ghost use Rattle.std.specs.Prelude.{◌≡◌};
ghost use Rattle.nearness.specs.Near.{nearness_of};
ghost use Rattle.ramekinfold.specs.Numbered.{of_near};

use answers::Numbered as _;

// An answer of document 01 with a number beside it, 0 on a refusal: C has no Result.
#[repr(C)]
#[derive(Drop)]
pub struct Numbered {
    pub answer: u32,
    pub number: u32,
}

#[unsafe(no_mangle)]
pub extern "C" fn rkf_nearness(first: &[u8], second: &[u8]) -> Numbered
    ensures { result ≡ of_near (nearness_of first.now second.now) }
{
    let near = nearness::near::nearness(first, second);
    Numbered {
        answer: near.number(),
        number: nearness::near::bits(near),
    }
}
