// The shelf of a machine: the chunks of its own book's records, in their order.
ghost use Rattle.std.specs.Prelude.{◌≤◌};
ghost use Rattle.day.specs.declared.shelved.TheConstants.{ROOM};

use crate::stock::Morning;
use book::header::count;
use book::record::record_at;

// Room for a book's chunks.
const ROOM: usize = 16384;

// The cells that stand on a shelf, and how many bytes they take: fixed room, so that a draw needs no heap.
#[derive(Drop)]
pub(crate) struct Shelf {
    bytes: [u8; ROOM],
    filled: usize,
    ghost within: { filled ≤ ROOM },
}

impl Shelf {
    // The chunk of each record that has one.
    pub(crate) fn of(book: &[u8], morning: &Morning) -> Shelf {
        let mut shelf = Shelf {
            bytes: [0; ROOM],
            filled: 0,
        };
        let records = (0..count(book)).map(|i| record_at(book, i));
        for cell in records.filter_map(|record| morning.cell(address(record)?)) {
            shelf.push(cell);
        }
        shelf
    }

    // One cell more, where there is room for it: a draw refuses a shelf that lacks one.
    fn push(&mut self, cell: &[u8]) {
        if let Some(room) = self.bytes[self.filled..].get_mut(..cell.len()) {
            room.copy_from_slice(cell);
            self.filled += cell.len();
        }
    }

    pub(crate) fn cells(&self) -> &[u8] {
        &self.bytes[..self.filled]
    }
}

// The address in a record, behind its slot and its time.
fn address(record: &[u8]) -> Option<&[u8; 32]> {
    record.get(48..)?.first_chunk()
}
