// A day of one neighbourhood on four machines: one stream of offers, four orders, four books, and at noon four draws.
#![tactic(auto)]

mod file;
mod hashes;
mod machine;
mod report;
mod shelved;
mod stock;
mod text;

use file::{blame, load};
use hashes::{draws, on_all, on_books, on_missed};
use machine::{CAPACITY, Machine};
use report::{books, reasons};
use reserve::offer::OfferError;
use std::io;
use std::rt::Files;
use stock::{Morning, OFFER, all_whole};

// Reads what the machines share. Nothing is told of a day that lacks a file.
fn main(rt: HostRuntime) -> io::Result<()> {
    let mut batches = [0u8; 4096];
    let mut offers = [0u8; 16384];
    let mut chunks = [0u8; 16384];
    let mut overlay = [0u8; 33];
    let mut anchor = [0u8; 33];
    let batches = load(&rt, "batches", 53, &mut batches);
    let offers = load(&rt, "offers", OFFER, &mut offers);
    let chunks = load(&rt, "chunks", 1, &mut chunks);
    let overlay = load(&rt, "overlay", 32, &mut overlay);
    let anchor = load(&rt, "anchor", 32, &mut anchor);
    let (Some(batches), Some(offers), Some(chunks), Some(overlay), Some(anchor)) = (
        batches, offers, chunks, overlay, anchor,
    ) else {
        return Ok(());
    };
    if !all_whole(chunks) {
        blame(&rt, "chunks", "is damaged: it ends inside a chunk");
        return Ok(());
    }
    let (offers, _) = offers.as_chunks();
    let morning = Morning {
        batches,
        offers,
        chunks,
        overlay,
        anchor,
    };
    listen(&rt, &morning)
}

// Lets each machine hear what its file says, and tells both scenes where all of them can be told.
fn listen(rt: &(impl Files + Print + Eprint + AllocGlobal), morning: &Morning) -> io::Result<()> {
    let a = machine_of(rt, 'A', "heard_a", morning);
    let b = machine_of(rt, 'B', "heard_b", morning);
    let c = machine_of(rt, 'C', "heard_c", morning);
    let d = machine_of(rt, 'D', "heard_d", morning);
    let less = machine_of(rt, 'D', "heard_d_less", morning);
    let (Some(a), Some(b), Some(c), Some(d), Some(less)) = (a, b, c, d, less) else {
        return Ok(());
    };
    if a.answered(OfferError::BadList) > 0 {
        blame(
            rt,
            "batches",
            "is damaged: it is not in the order of batch ids, or a depth is out of range",
        );
        return Ok(());
    }
    begin(rt, morning.offers.len())?;
    scene_one(rt, morning.anchor, &[a, b, c, d])?;
    scene_two(rt, morning.anchor, &[a, b, c, less])
}

// The machine that heard what a file says, at noon.
fn machine_of(
    rt: &(impl Files + Eprint + AllocGlobal),
    name: char,
    path: &str,
    morning: &Morning,
) -> Option<Machine> {
    let mut space = [0u8; 4096];
    let (heard, _) = load(rt, path, 2, &mut space)?.as_chunks();
    if !morning.has_all(heard) {
        blame(rt, path, "is damaged: it names an offer that is not there");
        return None;
    }
    Some(Machine::at_noon(name, morning, heard))
}

// What the day is about.
fn begin(rt: &impl Print, offers: usize) -> io::Result<()> {
    println!(rt;
        "A DAY ON FOUR MACHINES

This morning {offers} offers went round the neighbourhood: chunks, each with a stamp for a slot. Some came late,
some twice, some with a stamp that does not hold, and some slots were stamped for two chunks at once.
Four machines heard the offers, each in an order of its own, and each keeps its own book of what it
is to hold. A book has room for {CAPACITY} records.
"
    )
}

// The morning as it was to be.
fn scene_one(rt: &impl Print, anchor: &[u8], machines: &[Machine; 4]) -> io::Result<()> {
    print!(rt; "SCENE ONE: this morning ")?;
    books(rt, machines)?;
    reasons(rt, machines)?;
    on_books(rt, machines)?;
    at_noon(rt, anchor, machines)
}

// The same morning, where the fourth machine hears less.
fn scene_two(rt: &impl Print, anchor: &[u8], machines: &[Machine; 4]) -> io::Result<()> {
    print!(rt; "\nSCENE TWO: the same morning again, but now ")?;
    books(rt, machines)?;
    at_noon(rt, anchor, machines)
}

// The four draws, and who agrees.
fn at_noon(rt: &impl Print, anchor: &[u8], machines: &[Machine; 4]) -> io::Result<()> {
    draws(rt, anchor, machines)?;
    on_missed(rt, machines)?;
    on_all(rt, machines)
}
