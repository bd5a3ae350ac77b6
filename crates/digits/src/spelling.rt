// Digits: of a number in decimal, of four bytes in hex.
ghost use Rattle.std.specs.Prelude.{◌≡◌, [], ◌∷◌, ◌/◌, ◌%◌, ◌≤◌, ◌<◌, length};
ghost use Rattle.digits.specs.Field.{digit as Field·digit, hex};
ghost use Rattle.digits.specs.Spelled.{spelled};

// A number's decimal digits: the bytes from `from` on, behind zeros. An array and a place in it, since these crates have no heap for a String.
#[derive(Drop)]
pub struct Decimal {
    pub bytes: [u8; 20],
    pub from: usize,
}

// The decimal digits of a number, from the last one up. A `while`, since the number ends it and not the array: a `for` over places would
// need a way out besides, and `from` all the same.
pub fn decimal_of(n: u64) -> Decimal
    ensures value { result ≡ spelled n }
    ensures from_bound { (result.from < 20) × (20 ≤ length result.bytes) }
{
    let mut bytes = [0u8; 20];
    let mut from: usize = 20;
    let mut above = n;
    while 10 <= above {
        from -= 1;
        bytes[from] = digit(above % 10);
        above /= 10;
    }
    from -= 1;
    bytes[from] = digit(above);
    Decimal { bytes, from }
}

// Four bytes in hex.
pub fn hex_of(a: u8, b: u8, c: u8, d: u8) -> [u8; 8]
    ensures { result ≡ hex (a ∷ b ∷ c ∷ d ∷ []) }
{
    [
        high(a),
        low(a),
        high(b),
        low(b),
        high(c),
        low(c),
        high(d),
        low(d),
    ]
}

// The digit of a byte's upper half.
fn high(b: u8) -> u8
    ensures { result ≡ Field·digit (b / 16) }
{
    digit(u64::from(b / 16))
}

// The digit of its lower half.
fn low(b: u8) -> u8
    ensures { result ≡ Field·digit (b % 16) }
{
    digit(u64::from(b % 16))
}

// The digit of a number below 16.
fn digit(d: u64) -> u8
    requires { d < 16 }
    ensures { result ≡ Field·digit d }
{
    if d < 10 { 48 + d as u8 } else { 87 + d as u8 }
}
