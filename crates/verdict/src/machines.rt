// Whether machines are at one about a draw. A draw is the hash that was drawn, or why none was.
ghost use Rattle.std.specs.Prelude.{◌≡◌};
ghost use Rattle.verdict.specs.Agree.{one_hash, all_agreed};

use crate::equal::same_digest;

// Whether the four machines agree: all drew, and all drew the first one's hash.
pub fn agree<E>(draws: &[Result<[u8; 32], E>; 4]) -> bool
    ensures { result ≡ all_agreed draws.now }
{
    let [a, b, c, d] = draws;
    one_hash(a, b) && one_hash(a, c) && one_hash(a, d)
}

// Whether two machines drew, and drew one hash. Each arm is an equation of its definition.
pub fn one_hash<E>(a: &Result<[u8; 32], E>, b: &Result<[u8; 32], E>) -> bool
    ensures { result ≡ one_hash a.now b.now }
{
    match (a, b) {
        (Ok(first), Ok(second)) => same_digest(first, second),
        (Ok(_), Err(_)) => false,
        (Err(_), _) => false,
    }
}
