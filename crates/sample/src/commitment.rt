// The sixteen pairs written out as the sample, and their commitment.
ghost use Rattle.std.specs.Prelude.{◌≡◌, length};
ghost use Rattle.octets.specs.Pieces.{pieces};
ghost use Rattle.sample.specs.Sample.{written};
ghost use Rattle.sample.specs.Kept.{committed, written_over};

use moving::put;

// The sixteen pairs of `best`, written over `sample`, and their commitment. Nothing is written, and zeros are handed back, where not sixteen
// are held or a length is another: so `committed` promises, and with an Option a draw, which asks with sixteen alone, would have an arm that never runs.
#[tactic(auto, unfolding(crate::specs::Kept::committed, crate::specs::Kept::written_over))]
pub fn commit(sample: &mut [u8], best: &[u8], held: usize) -> [u8; 32]
    ensures result { result ≡ committed best.now held sample.old }
    ensures bytes { sample.new ≡ written_over best.now held sample.old }
{
    if held != 16 {
        return [0u8; 32];
    }
    if best.len() != 1024 {
        return [0u8; 32];
    }
    if sample.len() != 1024 {
        return [0u8; 32];
    }
    write_out(sample, best);
    chunk::address(b"\x00\x04\x00\x00\x00\x00\x00\x00", sample).unwrap()
}

// The sixteen pairs of `best`, over `sample`, each as address, anchored address.
fn write_out(sample: &mut [u8], best: &[u8])
    requires { (length sample.old ≡ 1024) × (length best.now ≡ 1024) }
    ensures { sample.new ≡ written (pieces 64 16 best.now) }
{
    // By place in the sample: what a loop over `chunks_exact_mut` leaves there is out of a proof's sight.
    for (place, pair) in best.chunks_exact(64).enumerate() {
        let at = 64 * place;
        put(sample, at, &pair[32..]);
        put(sample, at + 32, &pair[..32]);
    }
}
