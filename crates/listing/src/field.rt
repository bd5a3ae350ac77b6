// The fields of a line, put behind what is written already, each with the byte that ends it.
ghost use Rattle.std.specs.Prelude.{[], ◌∷◌, ◌++◌, ◌+◌, ◌≤◌, ◌<◌, length, take, drop};
ghost use Rattle.digits.specs.Field.{decimal, hex};
ghost use Rattle.listing.specs.Put.{Added};

use digits::{decimal_of, hex_of};
use moving::put;

// A buffer, and where in it the next byte goes.
#[derive(Drop)]
pub(crate) struct Text<'a> {
    pub(crate) out: &'a mut [u8],
    pub(crate) at: usize,
}

impl<'a> Text<'a> {
    // The bytes of `field`, with `end` behind them.
    pub(crate) fn field(&mut self, field: &[u8], end: u8)
        requires { self.old.at + length field.now < length self.old.out.now }
        ensures { Added self.old (field.now ++ (end ∷ [])) self.new }
    {
        put(self.out, self.at, field);
        self.at += field.len();
        self.out[self.at] = end;
        self.at += 1;
    }

    // The same of a number in decimal. No field of it is longer than 20 bytes.
    pub(crate) fn number(&mut self, n: u64, end: u8)
        requires { self.old.at + 20 < length self.old.out.now }
        ensures put { Added self.old (decimal n ++ (end ∷ [])) self.new }
        ensures upper_bound { self.new.at ≤ self.old.at + 21 }
    {
        let digits = decimal_of(n);
        self.field(&digits.bytes[digits.from..], end);
    }

    // The same of the four bytes of `s` from `from`, in hex.
    pub(crate) fn hex(&mut self, s: &[u8], from: usize, end: u8)
        requires { (self.old.at + 8 < length self.old.out.now) × (from + 4 ≤ length s.now) }
        ensures put { Added self.old (hex (take 4 (drop from s.now)) ++ (end ∷ [])) self.new }
        ensures upper_bound { self.new.at ≤ self.old.at + 9 }
    {
        let text = hex_of(s[from], s[from + 1], s[from + 2], s[from + 3]);
        self.field(&text, end);
    }
}
