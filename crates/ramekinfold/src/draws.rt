// The draw.
ghost use Rattle.std.specs.Prelude.{◌≡◌};
ghost use Rattle.draw.specs.Draw.{drawn, sample_after};
ghost use Rattle.ramekinfold.specs.Drawn.{of_drawn};

use answers::Numbered;

// An answer of document 01, the place that it names, and the commitment, zeros on a refusal: C has no Result.
#[repr(C)]
#[derive(Drop)]
pub struct Drawn {
    pub answer: u32,
    pub place: u32,
    pub commitment: [u8; 32],
}

#[unsafe(no_mangle)]
pub extern "C" fn rkf_draw(book: &[u8], shelf: &[u8], anchor: &[u8], sample: &mut [u8]) -> Drawn
    ensures value { result ≡ of_drawn (drawn book.now shelf.now anchor.now sample.old) }
    ensures sample_after { sample.new ≡ sample_after book.now shelf.now anchor.now sample.old }
{
    let drawn = draw::draw(book, shelf, anchor, sample);
    Drawn {
        answer: drawn.number(),
        place: draw::place(&drawn),
        commitment: drawn.unwrap_or([0u8; 32]),
    }
}
