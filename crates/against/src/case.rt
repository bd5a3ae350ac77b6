// The fields of a case, each a length of four bytes and so many bytes.

// Puts the fields that the bytes are into the space, one for each place; none where they are not just so many whole fields.
pub(crate) fn split<'a>(bytes: &'a [u8], fields: &mut [&'a [u8]]) -> Option<()> {
    let mut rest = bytes;
    for field in fields.iter_mut() {
        let (whole, behind) = first(rest)?;
        *field = whole;
        rest = behind;
    }
    rest.is_empty().then_some(())
}

// The field that the bytes begin with, and what is behind it; none where it is not whole.
fn first(bytes: &[u8]) -> Option<(&[u8], &[u8])> {
    let (size, rest) = bytes.split_first_chunk::<4>()?;
    rest.split_at_checked(u32::from_be_bytes(*size) as usize)
}
