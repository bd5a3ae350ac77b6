// The text that is printed for what was read.
ghost use Rattle.std.specs.Prelude.{◌≡◌, true, ◌≤◌, length};
ghost use Rattle.moving.specs.Moving.{over};
ghost use Rattle.wellformed.specs.Check.{well_formed};
ghost use Rattle.listing.specs.Listing.{listing, printed};
ghost use Rattle.listing.specs.Put.{Added};

use crate::field::Text;
use crate::line::{put_header, put_records};
use book::header::count;
use wellformed::check::check_book;

// The text for `input`, over the first bytes of `text`; says how many they are. There is room for every text.
pub fn list(input: &[u8], text: &mut [u8; 65536]) -> usize
    ensures value { (result ≡ length (printed input.now)) × (text.new ≡ over text.old 0 (printed input.now)) }
    ensures upper_bound { result ≤ length text.new }
{
    let mut written = Text { out: text, at: 0 };
    put_text(&mut written, input);
    written.at
}

// The same, behind nothing, in a buffer of that size.
fn put_text(text: &mut Text<'_>, input: &[u8])
    requires { (text.old.at ≡ 0) × (length text.old.out.now ≡ 65536) }
    ensures { Added text.old (printed input.now) text.new }
{
    if 65536 < input.len() {
        text.field(b"too large", b'\n');
    } else if check_book(input).is_err() {
        text.field(b"bad book", b'\n');
    } else {
        put_header(text, input);
        put_records(text, input, count(input));
    }
}
