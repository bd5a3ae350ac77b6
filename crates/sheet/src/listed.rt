// The book of the listing example: what its text is printed from.
use crate::stamped::{BOOK, begun, offered, opened};
use crate::tally::Tally;
use answers::Numbered;
use book::header::{capacity, count, depth, overfull, starting_depth};
use nearness::near::{bits, nearness};
use octets::number::read;
use std::io;
use wellformed::check::check_book;

// The batch depth of the example.
const BATCH_DEPTH: u8 = 17;

// Two offers, then the fields line by line.
pub(crate) fn run(rt: &impl Print, tally: &mut Tally) -> io::Result<()> {
    println!(rt; "The book of the listing, batch depth 17:")?;
    let mut book = opened();
    offers(rt, tally, &mut book)?;
    header(rt, tally, &book)?;
    fields(rt, tally, &book)?;
    records(rt, tally, &book)
}

fn offers(rt: &impl Print, tally: &mut Tally, book: &mut [u8; BOOK]) -> io::Result<()> {
    let answer = offered(book, BATCH_DEPTH, begun([0x80, 0, 0]), 0, 100);
    tally.add(rt, "Address 80 00 .. 00, index 0, time 100", 0, answer)?;
    let answer = offered(book, BATCH_DEPTH, begun([0x12, 0x34, 0]), 1, 7);
    tally.add(rt, "Address 12 34 00 .. 00, index 1, time 7", 0, answer)
}

// The listing's first line, and what stands before its numbers.
fn header(rt: &impl Print, tally: &mut Tally, book: &[u8; BOOK]) -> io::Result<()> {
    println!(rt; "RSV 1 good 0 0 2 16")?;
    tally.add(rt, "Well formed", 0, check_book(book).number())?;
    tally.bytes(rt, "Mark and a zero byte", *b"RSV\0", first_four(book))?;
    tally.add(rt, "Version", 1, read::<u16>(book, 3))?;
    tally.add(rt, "State good", 0, u8::from(overfull(book)))
}

// The numbers behind it.
fn fields(rt: &impl Print, tally: &mut Tally, book: &[u8; BOOK]) -> io::Result<()> {
    tally.add(rt, "Starting depth", 0, starting_depth(book))?;
    tally.add(rt, "Depth", 0, depth(book))?;
    tally.add(rt, "Count", 2, count(book))?;
    tally.add(rt, "Capacity", 16, capacity(book))
}

// The lines of the two records.
fn records(rt: &impl Print, tally: &mut Tally, book: &[u8; BOOK]) -> io::Result<()> {
    println!(rt; "11111111 4660 1 7 12340000 3")?;
    record(rt, tally, &book[48..193], 4660, 1, 7)?;
    address(rt, tally, &book[96..128], [0x12, 0x34, 0, 0], 3)?;
    println!(rt; "11111111 32768 0 100 80000000 0")?;
    record(rt, tally, &book[193..338], 32768, 0, 100)?;
    address(rt, tally, &book[241..273], [0x80, 0, 0, 0], 0)
}

// What a record says of its slot and time.
fn record(
    rt: &impl Print,
    tally: &mut Tally,
    record: &[u8],
    bucket: u32,
    index: u32,
    time: u64,
) -> io::Result<()> {
    tally.bytes(rt, "First four batch bytes", [0x11; 4], first_four(record))?;
    tally.add(rt, "Bucket", bucket, read::<u32>(record, 32))?;
    tally.add(rt, "Index", index, read::<u32>(record, 36))?;
    tally.add(rt, "Time", time, read::<u64>(record, 40))
}

// What it says of its address; the overlay is zero.
fn address(
    rt: &impl Print,
    tally: &mut Tally,
    address: &[u8],
    first: [u8; 4],
    shared: u32,
) -> io::Result<()> {
    let overlay = [0u8; 32];
    tally.bytes(rt, "First four address bytes", first, first_four(address))?;
    tally.add(rt, "Shared bits", shared, bits(nearness(address, &overlay)))
}

fn first_four(bytes: &[u8]) -> [u8; 4] {
    read::<u32>(bytes, 0).to_be_bytes()
}
