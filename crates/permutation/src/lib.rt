// Keccak-f[1600] on 25 lanes: lane (x, y) stands at x + 5y.
#![tactic(auto)]

mod rows;

ghost use Rattle.std.specs.Prelude.{◌≡◌};
ghost use Rattle.permutation.specs.Permutation.{once, permute};

use rows::{column_parities, row};
use tables::round_constants;

// A round whose constant is rc.
fn round(a: [u64; 25], rc: u64) -> [u64; 25]
    ensures { result ≡ once rc a }
{
    let d = column_parities(a);
    let p = row::<0>(a, d);
    let q = row::<1>(a, d);
    let r = row::<2>(a, d);
    let s = row::<3>(a, d);
    let t = row::<4>(a, d);
    [
        p[0] ^ rc,
        p[1],
        p[2],
        p[3],
        p[4],
        q[0],
        q[1],
        q[2],
        q[3],
        q[4],
        r[0],
        r[1],
        r[2],
        r[3],
        r[4],
        s[0],
        s[1],
        s[2],
        s[3],
        s[4],
        t[0],
        t[1],
        t[2],
        t[3],
        t[4],
    ]
}

// The 24 rounds.
pub fn permute(start: [u64; 25]) -> [u64; 25]
    ensures { result ≡ permute start }
{
    let mut a = start;
    for rc in round_constants() {
        let b = round(a, rc);
        a = b;
    }
    a
}
