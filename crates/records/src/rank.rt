// Rank in one slot: which of two records stays.
ghost use Rattle.std.specs.Prelude.{◌≡◌, take};
ghost use Rattle.records.specs.Rank.{rank_order};
ghost use Rattle.records.specs.Choice.{choice, higher_of, place_of, preferred};

use octets::order::compare;
use std::cmp::Ordering;

// Which of two records ranks higher. Neither is an answer as the others are, and `choice` promises the three by name: an Option of two would say no more.
#[derive(Clone, Copy)]
pub enum Choice {
    First,
    Second,
    Neither,
}

// The caller's record that ranks higher, the first if they are equal; for other lengths or two slots an empty part of the first.
pub fn higher<'a>(first: &'a [u8], second: &'a [u8]) -> &'a [u8]
    ensures result_value { result.now ≡ higher_of first.now second.now }
    ensures ref_ptr_value { result.ref_ptr ≡ place_of first.now second.now first.entry.ref_ptr second.entry.ref_ptr }
{
    match choose(first, second) {
        Choice::First => first,
        Choice::Second => second,
        Choice::Neither => &first[0..0],
    }
}

// The verdict by itself, for a host in another language, which holds both records and asks only which one.
pub fn choose(first: &[u8], second: &[u8]) -> Choice
    ensures { result ≡ choice first.now second.now }
{
    let Some(first) = first.as_array() else {
        return Choice::Neither;
    };
    let Some(second) = second.as_array() else {
        return Choice::Neither;
    };
    if compare(&first[..40], &second[..40]).is_ne() {
        return Choice::Neither;
    }
    prefer(rank(first, second))
}

// The first unless the second ranks higher.
fn prefer(order: Ordering) -> Choice
    ensures { result ≡ preferred order }
{
    if order.is_gt() {
        Choice::Second
    } else {
        Choice::First
    }
}

// How two records of one slot rank, Less where the first ranks higher: the later time, then the smaller address, then the smaller signature bytes.
fn rank(first: &[u8; 145], second: &[u8; 145]) -> Ordering
    requires { take 40 first.now ≡ take 40 second.now }
    ensures { result ≡ rank_order first.now second.now }
{
    compare(&first[40..48], &second[40..48])
        .reverse()
        .then_with(|| compare(&first[48..80], &second[48..80]))
        .then_with(|| compare(&first[80..145], &second[80..145]))
}
