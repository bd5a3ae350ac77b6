// Edits of a lent buffer in place. Where an edit does not fit, nothing changes.
// The places stand beside the buffer since `placed`, `lowered`, `raised` and `inserted` promise that at each place, fitting or not.
ghost use Rattle.std.specs.Prelude.{◌≡◌, ◌+◌, leb, replicate};
ghost use Rattle.moving.specs.Moving.{placed, lowered, raised, inserted};

// The bytes of `v`, over those of `s` from `at`.
pub fn put(s: &mut [u8], at: usize, v: &[u8])
    ensures { s.new ≡ placed s.old at v.now }
{
    if fits(s.len(), at, v.len()) {
        s[at..at + v.len()].copy_from_slice(v);
    }
}

// `n` zeros, over the bytes of `s` from `at`.
pub fn clear(s: &mut [u8], at: usize, n: usize)
    ensures { s.new ≡ placed s.old at (replicate n 0) }
{
    if fits(s.len(), at, n) {
        s[at..at + n].fill(0);
    }
}

// The `n` bytes from `from`, moved down to `to`. At one place there is nothing to move.
// This and the next go by place: std's copy within a slice would have the archive ask C for `memmove`, beside `memcpy` and `memset`.
pub fn lower(s: &mut [u8], from: usize, to: usize, n: usize)
    ensures { s.new ≡ lowered s.old from to n }
{
    if to < from && fits(s.len(), from, n) {
        for i in 0..n {
            s[to + i] = s[from + i];
        }
    }
}

// The bytes from `at` up to `end`, moved up by `n`.
pub fn raise(s: &mut [u8], at: usize, end: usize, n: usize)
    ensures { s.new ≡ raised s.old at end n }
{
    if at <= end && fits(s.len(), end, n) {
        for i in (at..end).rev() {
            s[i + n] = s[i];
        }
    }
}

// `v`, put in at `at`, with the bytes from there up to `end` moved up behind it.
pub fn insert(s: &mut [u8], at: usize, end: usize, v: &[u8])
    ensures { s.new ≡ inserted s.old at end v.now }
{
    if at <= end && fits(s.len(), end, v.len()) {
        raise(s, at, end, v.len());
        put(s, at, v);
    }
}

// Whether `length` bytes have `n` from `at`.
fn fits(length: usize, at: usize, n: usize) -> bool
    ensures { result ≡ leb (at + n) length }
{
    at <= length && n <= length - at
}
