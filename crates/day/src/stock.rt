// What the day's files hold: offers of 166 bytes, places of 2, and chunks, each its address and its cell.
ghost use Rattle.std.specs.Prelude.{length};
ghost use Rattle.std.specs.Iterator.{at_most};

use octets::number::read;

// Address, stamp and account, and how many of the stamp's last bytes were lost on the way.
pub(crate) const OFFER: usize = 166;

// The place of an offer among the offers.
pub(crate) type Place = [u8; 2];

// What stands in a cell before a chunk's data: its span and its length.
const HEAD: usize = 10;

// What went round the neighbourhood, and what is the same for all its machines.
#[derive(Clone, Copy)]
pub(crate) struct Morning<'a> {
    pub batches: &'a [u8],
    pub offers: &'a [[u8; OFFER]],
    pub chunks: &'a [u8],
    pub overlay: &'a [u8],
    pub anchor: &'a [u8],
}

impl<'a> Morning<'a> {
    // The offer at a place, if there is one.
    pub(crate) fn offer(&self, place: Place) -> Option<&'a [u8; OFFER]> {
        self.offers.get(index(place))
    }

    // Whether every place that was heard is an offer's.
    pub(crate) fn has_all(&self, heard: &[Place]) -> bool {
        heard.iter().all(|place| self.offer(*place).is_some())
    }

    // How many offers a machine never heard.
    pub(crate) fn missed(&self, heard: &[Place]) -> usize {
        let was_heard = |i: &usize| heard.iter().any(|place| index(*place) == *i);
        (0..self.offers.len()).filter(|i| !was_heard(i)).count()
    }

    // The cell of the chunk with an address, if there is such a chunk.
    pub(crate) fn cell(&self, address: &[u8; 32]) -> Option<&'a [u8]> {
        Cells { rest: self.chunks }
            .find(|(of, _)| *of == address)
            .map(|(_, cell)| cell)
    }
}

// Where a place is, counted from 0.
fn index(place: Place) -> usize {
    u16::from_be_bytes(place) as usize
}

// The chunks of a file in their order, each its address and its cell: span, length and data. The walk ends before one that is not whole.
#[derive(Drop)]
pub(crate) struct Cells<'a> {
    rest: &'a [u8],
}

impl<'a> Iterator for Cells<'a> {
    type Item = (&'a [u8; 32], &'a [u8]);

    ghost remaining = { λ s. at_most (length s.rest.now) };

    fn next(&mut self) -> Option<(&'a [u8; 32], &'a [u8])> {
        let (address, rest) = self.rest.split_first_chunk::<32>()?;
        let size = HEAD + read::<u16>(rest, 8) as usize;
        let (cell, rest) = rest.split_at_checked(size)?;
        self.rest = rest;
        Some((address, cell))
    }
}

// Whether the chunks end where the file does.
pub(crate) fn all_whole(chunks: &[u8]) -> bool {
    let mut cells = Cells { rest: chunks };
    for _ in cells.by_ref() {}
    cells.rest.is_empty()
}
