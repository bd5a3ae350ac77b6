// The fields of a line: bytes in hexadecimal, `.` for none, or `BYTES*COUNT` for bytes repeated.

// The most bytes that a part of a message stands for.
pub(crate) const PART_LIMIT: usize = 8192;

// What has been read of the open field, a state of its own for each. Its bytes stand at the start of a lent space.
#[derive(Clone, Copy)]
pub(crate) enum Field {
    // Nothing of the whole line.
    Start,
    // So many hexadecimal digits.
    Digits(usize),
    // The dot of no bytes.
    Nothing,
    // So many bytes, which are to stand so often.
    Times(usize, usize),
}

// Why a line is read no further.
#[derive(Clone, Copy)]
pub(crate) enum Stop {
    Comment,
    Wrong,
}

impl Field {
    // One byte more, which ends no field.
    pub(crate) fn step(self, b: u8, space: &mut [u8]) -> Result<Field, Stop> {
        match self {
            Field::Start if b == b'#' => Err(Stop::Comment),
            Field::Start => digits(0, b, space),
            Field::Digits(n) => digits(n, b, space),
            Field::Times(n, count) => times(n, count, b),
            Field::Nothing => Err(Stop::Wrong),
        }
    }

    // How many bytes the field is at its end, repeats written out.
    pub(crate) fn ended(self, space: &mut [u8]) -> Result<usize, Stop> {
        match self {
            Field::Digits(n) if n > 0 && n % 2 == 0 => Ok(n / 2),
            Field::Nothing => Ok(0),
            Field::Times(n, count) => repeated(n, count, space).ok_or(Stop::Wrong),
            _ => Err(Stop::Wrong),
        }
    }
}

// A byte after n digits.
fn digits(n: usize, b: u8, space: &mut [u8]) -> Result<Field, Stop> {
    match b {
        b'.' if n == 0 => Ok(Field::Nothing),
        b'*' if n > 0 && n % 2 == 0 => Ok(Field::Times(n / 2, 0)),
        _ => hexadecimal(n, b, space),
    }
}

// A hexadecimal digit more, in either case.
fn hexadecimal(n: usize, b: u8, space: &mut [u8]) -> Result<Field, Stop> {
    let v = char::from(b).to_digit(16).ok_or(Stop::Wrong)?;
    put(n, v as u8, space)
}

// Digit n is worth v: the high half of a byte, or the low one.
fn put(n: usize, v: u8, space: &mut [u8]) -> Result<Field, Stop> {
    let byte = space.get_mut(n / 2).ok_or(Stop::Wrong)?;
    *byte = if n % 2 == 0 { v << 4 } else { *byte | v };
    Ok(Field::Digits(n + 1))
}

// A digit of the count, which stops growing once no part can have it.
fn times(n: usize, count: usize, b: u8) -> Result<Field, Stop> {
    if count >= PART_LIMIT {
        return Err(Stop::Wrong);
    }
    let v = char::from(b).to_digit(10).ok_or(Stop::Wrong)?;
    Ok(Field::Times(n, count * 10 + v as usize))
}

// The first n bytes of the space, count times. A count of 0, or none, is no field.
fn repeated(n: usize, count: usize, space: &mut [u8]) -> Option<usize> {
    if n == 0 || count == 0 {
        return None;
    }
    let end = n.checked_mul(count)?;
    let (part, rest) = space.get_mut(..end)?.split_at_mut_checked(n)?;
    for copy in rest.chunks_exact_mut(n) {
        copy.copy_from_slice(part);
    }
    Some(end)
}
