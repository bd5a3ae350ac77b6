// The two tables of the permutation, written out. Each is shown to follow its rule by the contract of the function that hands it
// out: antt computes the rule over the whole table.
#![tactic(auto)]

ghost use Rattle.std.specs.Prelude.{◌≡◌};
ghost use Rattle.tables.specs.Rules.{tab, RC, offsets};

const ROUND_CONSTANTS: [u64; 24] = [
    0x0000000000000001,
    0x0000000000008082,
    0x800000000000808a,
    0x8000000080008000,
    0x000000000000808b,
    0x0000000080000001,
    0x8000000080008081,
    0x8000000000008009,
    0x000000000000008a,
    0x0000000000000088,
    0x0000000080008009,
    0x000000008000000a,
    0x000000008000808b,
    0x800000000000008b,
    0x8000000000008089,
    0x8000000000008003,
    0x8000000000008002,
    0x8000000000000080,
    0x000000000000800a,
    0x800000008000000a,
    0x8000000080008081,
    0x8000000000008080,
    0x0000000080000001,
    0x8000000080008008,
];

pub const LANE_OFFSETS: [u64; 25] = [
    0, 1, 62, 28, 27, 36, 44, 6, 55, 20, 3, 10, 43, 25, 39, 41, 45, 15, 21, 8, 18, 2, 61, 56, 14,
];

// Round i's constant at i: the shift register of FIPS 202, 3.2.5.
pub fn round_constants() -> [u64; 24]
    ensures { result ≡ tab RC 0 24 }
{
    ROUND_CONSTANTS
}

// Lane (x, y)'s offset at x + 5y: (t + 1)(t + 2) / 2 modulo 64 at step t of the walk of FIPS 202, 3.2.2.
pub fn lane_offsets() -> [u64; 25]
    ensures { result ≡ offsets }
{
    LANE_OFFSETS
}
