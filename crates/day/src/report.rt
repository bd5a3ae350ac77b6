// What is said of four machines.
use crate::machine::Machine;
use crate::text::Hex;
use answers::Numbered;
use reserve::offer::{Filed, OfferError};
use std::io;

// What the columns mean, and the head of the reasons.
const WORDS: &str = "  heard     offers that reached the machine; one that came twice counts twice
  missed    offers that never reached it
  kept      offers whose record went into the book, if only for a while
  dropped   offers that found the book full and lay too far away to stay
  refused   offers that changed nothing, for one of the reasons below
  records   how many records the book has now, one for each slot that is held
  depth     how many leading bits a chunk's address must share with the neighbourhood's;
            a fresh book has depth 0, and a full one rises until its records fit
  digest    a fingerprint of all the book's bytes: the first 8 of the 32 bytes of their Keccak-256

Why offers were refused                                        A     B     C     D";

// Why an offer is refused.
const REASONS: [(OfferError, &str); 8] = [
    (OfferError::WrongLength, "the stamp came cut short"),
    (OfferError::NoBatch, "the stamp's batch is not in the list"),
    (
        OfferError::OtherBucket,
        "the stamp is for another bucket than the chunk's",
    ),
    (
        OfferError::IndexPast,
        "the stamp's index is past the bucket's slots",
    ),
    (
        OfferError::NotOwner,
        "the account that signed is not the batch's owner",
    ),
    (
        OfferError::Outside,
        "the chunk lies outside the depth: too far away",
    ),
    (
        OfferError::Held,
        "this very record is held already: a repeat",
    ),
    (
        OfferError::Outranked,
        "the slot is held by a stamp of higher rank",
    ),
];

// Who heard all, and a line for each machine.
pub(crate) fn books(rt: &impl Print, machines: &[Machine; 4]) -> io::Result<()> {
    if machines.iter().all(|machine| machine.missed == 0) {
        println!(rt; "every machine heard every offer\n")?;
    } else {
        println!(rt; "some offers did not reach every machine\n")?;
    }
    println!(rt;
        "At noon       heard  missed    kept  dropped  refused   records  depth   digest of the book"
    )?;
    for machine in machines {
        book(rt, machine)?;
    }
    println!(rt)
}

// One machine's line. The first eight bytes tell digests apart.
fn book(rt: &impl Print, machine: &Machine) -> io::Result<()> {
    println!(rt;
        "  machine {}{:8}{:8}{:8}{:9}{:9}{:10}{:7}   {}",
        machine.name,
        machine.heard,
        machine.missed,
        machine.answered(Filed::Kept),
        machine.answered(Filed::Dropped),
        machine.refused(),
        machine.records,
        machine.depth,
        Hex(&machine.digest[..8])
    )
}

// What the columns mean, why each machine refused offers, and how often.
pub(crate) fn reasons(rt: &impl Print, machines: &[Machine; 4]) -> io::Result<()> {
    println!(rt; "{WORDS}")?;
    for (error, why) in REASONS {
        print!(rt; "  {}  {why:52}", error.number())?;
        for machine in machines {
            print!(rt; "{:6}", machine.answered(error))?;
        }
        println!(rt)?;
    }
    Ok(())
}
