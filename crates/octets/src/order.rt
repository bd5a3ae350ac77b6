// The byte order of two strings: the first byte that differs decides, and a string that ends first is the lesser.
ghost use Rattle.std.specs.Prelude.{◌≡◌, min};
ghost use Rattle.octets.specs.Order.{byte_order};

use std::cmp::Ordering;

// How `a` stands to `b` in byte order.
pub fn compare(a: &[u8], b: &[u8]) -> Ordering
    ensures { result ≡ byte_order a.now b.now }
{
    a.cmp(b)
}

// The lesser of two lengths.
pub fn lesser(a: usize, b: usize) -> usize
    ensures { result ≡ min a b }
{
    a.min(b)
}
