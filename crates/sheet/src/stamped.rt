// The batch of the examples, its stamps, and offers with them to a book of capacity 16.
use answers::Numbered;
use moving::write;
use octets::number::read;
use opening::open::open;
use reserve::offer::offer;

// The bytes of a book of capacity 16.
pub(crate) const BOOK: usize = 2368;

// A batch depth that gives every bucket 32 slots, where document 01 leaves the depth open.
pub(crate) const ROOMY: u8 = 21;

// A book with capacity 16, starting depth 0 and overlay zero.
pub(crate) fn opened() -> [u8; BOOK] {
    let overlay = [0u8; 32];
    let mut book = [0u8; BOOK];
    let _ = open(&mut book, &overlay, 16, 0);
    book
}

// An address with these first three bytes.
pub(crate) fn begun(bytes: [u8; 3]) -> [u8; 32] {
    let mut address = [0u8; 32];
    address[..3].copy_from_slice(&bytes);
    address
}

// The owner's offer of an address, with a stamp for its bucket and a signature of zeros: the number handed back.
pub(crate) fn offered(
    book: &mut [u8],
    batch_depth: u8,
    address: [u8; 32],
    index: u32,
    time: u64,
) -> u32 {
    let batches = batch(batch_depth);
    let stamp = stamp(address, index, time);
    let owner = [0x22u8; 20];
    offer(book, &batches, &address, &stamp, &owner).number()
}

// A list of one batch: id thirty-two 0x11, owner twenty 0x22.
fn batch(depth: u8) -> [u8; 53] {
    let mut list = [0x11u8; 53];
    list[32..52].fill(0x22);
    list[52] = depth;
    list
}

// That batch's stamp for the bucket of an address.
fn stamp(address: [u8; 32], index: u32, time: u64) -> [u8; 113] {
    let mut stamp = [0u8; 113];
    stamp[..32].fill(0x11);
    write(&mut stamp, 32, u32::from(read::<u16>(&address, 0)));
    write(&mut stamp, 36, index);
    write(&mut stamp, 40, time);
    stamp
}
