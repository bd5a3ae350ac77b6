// Segments of 32 bytes, as stretches of the caller's own data, of any length.
#![tactic(auto)]

ghost use Rattle.std.specs.Prelude.{◌≡◌, length};
ghost use Rattle.merkle.specs.Segment.{segment_count, segment_start, segment_of, onward};

// The least number of segments that covers the data.
pub fn segment_count(data: &[u8]) -> usize
    ensures { result ≡ segment_count (length «data».now) }
{
    data.len().div_ceil(32)
}

// Where a segment begins, which is the data's end from the count on. The count comes first: the product could pass 64 bits.
pub fn segment_start(data: &[u8], index: u64) -> usize
    ensures { result ≡ segment_start (length «data».now) index }
{
    if index < segment_count(data) as u64 {
        32 * index as usize
    } else {
        data.len()
    }
}

// The segment: shorter at the data's end, and empty from the count on.
pub fn segment(data: &[u8], index: u64) -> &[u8]
    ensures result_value { result.now ≡ segment_of «data».now index }
    ensures ref_ptr_value { result.ref_ptr ≡ onward (segment_start (length «data».now) index) «data».entry.ref_ptr }
{
    let start = segment_start(data, index);
    let end = data.len().min(start + 32);
    &data[start..end]
}
