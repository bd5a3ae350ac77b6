// A round's rows. Each row of the next state is made from five lanes of this one, so that no second state is held whole.
ghost use Rattle.std.specs.Prelude.{◌≡◌, ◌<◌};
ghost use Rattle.permutation.specs.Lanes.{lane};
ghost use Rattle.permutation.specs.Steps.{D, rho, pi, chi};
ghost use Rattle.permutation.specs.Rows.{row, mixed};

use tables::LANE_OFFSETS;

// What theta xors into each column.
pub(crate) fn column_parities(a: [u64; 25]) -> [u64; 5]
    ensures { result ≡ D a }
{
    let c0 = a[0] ^ a[5] ^ a[10] ^ a[15] ^ a[20];
    let c1 = a[1] ^ a[6] ^ a[11] ^ a[16] ^ a[21];
    let c2 = a[2] ^ a[7] ^ a[12] ^ a[17] ^ a[22];
    let c3 = a[3] ^ a[8] ^ a[13] ^ a[18] ^ a[23];
    let c4 = a[4] ^ a[9] ^ a[14] ^ a[19] ^ a[24];
    [
        c4 ^ c1.rotate_left(1),
        c0 ^ c2.rotate_left(1),
        c1 ^ c3.rotate_left(1),
        c2 ^ c4.rotate_left(1),
        c3 ^ c0.rotate_left(1),
    ]
}

// Row Y after theta, rho, pi and chi. Over a constant Y each lane's place and offset are constants too, and a lane turns by one instruction.
pub(crate) fn row<const Y: usize>(a: [u64; 25], d: [u64; 5]) -> [u64; 5]
    requires { Y < 5 }
    ensures { result ≡ row Y (chi (pi (rho (mixed a d)))) }
{
    let b0 = turned(a, d, 0, Y);
    let b1 = turned(a, d, 1, Y);
    let b2 = turned(a, d, 2, Y);
    let b3 = turned(a, d, 3, Y);
    let b4 = turned(a, d, 4, Y);
    [
        b0 ^ (!b1 & b2),
        b1 ^ (!b2 & b3),
        b2 ^ (!b3 & b4),
        b3 ^ (!b4 & b0),
        b4 ^ (!b0 & b1),
    ]
}

// The lane that pi brings to (x, y), after theta and turned.
fn turned(a: [u64; 25], d: [u64; 5], x: usize, y: usize) -> u64
    requires { (x < 5) × (y < 5) }
    ensures { result ≡ lane (pi (rho (mixed a d))) x y }
{
    let from = (x + 3 * y) % 5;
    let i = from + 5 * x;
    (a[i] ^ d[from]).rotate_left(LANE_OFFSETS[i] as u32)
}
