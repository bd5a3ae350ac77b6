// What is said of four draws, and of who agrees.
use crate::machine::Machine;
use crate::text::Hex;
use answers::Numbered;
use draw::DrawError;
use std::io;
use verdict::equal::same_digest;
use verdict::machines::{agree, one_hash};

// The anchor, and a line for each machine.
pub(crate) fn draws(rt: &impl Print, anchor: &[u8], machines: &[Machine; 4]) -> io::Result<()> {
    println!(rt;
        "The draw: the anchor picks sixteen chunks from each machine's own book, and one hash stands for them
  anchor      {}",
        Hex(anchor)
    )?;
    let [first, ..] = machines;
    for machine in machines {
        drawn(rt, machine, first)?;
    }
    println!(rt)
}

// One machine's line, marked where its hash is not the first machine's.
fn drawn(rt: &impl Print, machine: &Machine, first: &Machine) -> io::Result<()> {
    print!(rt; "  machine {}   ", machine.name)?;
    match &machine.drawn {
        Ok(hash) if one_hash(&first.drawn, &machine.drawn) => println!(rt; "{}", Hex(hash)),
        Ok(hash) => println!(rt; "{}   not machine A's", Hex(hash)),
        Err(error) => {
            println!(rt;
                "no hash, since the draw answered {}{}",
                error.number(),
                why(*error)
            )
        }
    }
}

// Why there is no hash.
fn why(error: DrawError) -> &'static str {
    match error {
        DrawError::ShelfEnds(_) => ": a chunk is missing",
        DrawError::Mismatch(_) => ": a chunk is not the one that its record names",
        DrawError::TooFew => ": the book has fewer than sixteen chunks",
        _ => "",
    }
}

// Whether the four books have one digest.
pub(crate) fn on_books(rt: &impl Print, machines: &[Machine; 4]) -> io::Result<()> {
    println!(rt;
        "\nWhat was kept and what was refused on the way depends on the order of the offers."
    )?;
    let [first, ..] = machines;
    if machines
        .iter()
        .all(|machine| same_digest(&machine.digest, &first.digest))
    {
        println!(rt; "What the books came to does not: four orders, one digest.\n")
    } else {
        println!(rt; "And the books came to more than one digest.\n")
    }
}

// Who missed offers, and whether its book and its hash are the first machine's all the same.
pub(crate) fn on_missed(rt: &impl Print, machines: &[Machine; 4]) -> io::Result<()> {
    let [first, ..] = machines;
    for machine in machines.iter().skip(1) {
        if machine.missed == 0 {
            continue;
        }
        let same = match (
            same_digest(&machine.digest, &first.digest),
            one_hash(&first.drawn, &machine.drawn),
        ) {
            (true, true) => "its book and its hash are machine A's all the same",
            (true, false) => "its book is machine A's, but its hash is not",
            (false, true) => "its hash is machine A's, but its book is not",
            (false, false) => "its book and its hash are not machine A's",
        };
        println!(rt;
            "Machine {} missed {} offers: {same}.",
            machine.name, machine.missed
        )?;
    }
    Ok(())
}

// Whether the four agree: that is said of four equal hashes alone.
pub(crate) fn on_all(rt: &impl Print, machines: &[Machine; 4]) -> io::Result<()> {
    let [a, b, c, d] = machines;
    if agree(&[a.drawn, b.drawn, c.drawn, d.drawn]) {
        println!(rt; "THE FOUR MACHINES AGREE: all four drew one hash.")
    } else {
        println!(rt; "THE FOUR MACHINES DO NOT AGREE.")
    }
}
