// Capacity 16, starting depth 0, overlay zero, sixteen slots, and a seventeenth.
use crate::stamped::{BOOK, ROOMY, begun, offered, opened};
use crate::tally::Tally;
use book::header::{count, depth};
use std::io;

// The three examples of a seventeenth slot.
pub(crate) fn run(rt: &impl Print, tally: &mut Tally) -> io::Result<()> {
    println!(rt; "Capacity 16, starting depth 0, overlay zero:")?;
    nine_and_seven(rt, tally)?;
    eight_of_each(rt, tally)?;
    one_bucket(rt, tally)
}

fn nine_and_seven(rt: &impl Print, tally: &mut Tally) -> io::Result<()> {
    let mut book = two_sides(9, 7);
    tally.add(
        rt,
        "Sixteen slots with first byte 0x80 (nine) and 0x40 (seven), count",
        16,
        count(&book),
    )?;
    let answer = offered(&mut book, ROOMY, begun([0x40, 16, 16]), 16, 1);
    tally.add(rt, "A seventeenth at 0x40 gives", 0, answer)?;
    tally.add(rt, "A seventeenth at 0x40, depth", 1, depth(&book))?;
    tally.add(rt, "A seventeenth at 0x40, count", 8, count(&book))
}

fn eight_of_each(rt: &impl Print, tally: &mut Tally) -> io::Result<()> {
    let mut book = two_sides(8, 8);
    tally.add(rt, "With eight of each, count", 16, count(&book))?;
    let answer = offered(&mut book, ROOMY, begun([0x80, 16, 16]), 16, 1);
    tally.add(
        rt,
        "With eight of each and a seventeenth at 0x80",
        2,
        answer,
    )?;
    tally.add(
        rt,
        "With eight of each and a seventeenth at 0x80, depth",
        1,
        depth(&book),
    )?;
    tally.add(
        rt,
        "With eight of each and a seventeenth at 0x80, count",
        8,
        count(&book),
    )
}

// A book that was offered so many slots with first byte 0x80, and so many with 0x40, each in a bucket of its own.
fn two_sides(first: u8, second: u8) -> [u8; BOOK] {
    let mut book = opened();
    fill(&mut book, first, |place| begun([0x80, place, place]));
    fill(&mut book, second, |place| begun([0x40, place, place]));
    book
}

fn one_bucket(rt: &impl Print, tally: &mut Tally) -> io::Result<()> {
    let mut book = opened();
    fill(&mut book, 16, |place| begun([0, 0, place]));
    tally.add(rt, "Sixteen slots in bucket 0, count", 16, count(&book))?;
    let answer = offered(&mut book, ROOMY, begun([0, 0, 16]), 16, 1);
    tally.add(rt, "Seventeen slots in bucket 0: the last gives", 3, answer)
}

// Offers so many slots, each the address of its place, from 0 on.
fn fill<F: Fn(u8) -> [u8; 32]>(book: &mut [u8], slots: u8, address: F)
    requires { F.IsAlwaysCallable address }
{
    for place in 0..slots {
        offered(book, ROOMY, address(place), u32::from(place), 1);
    }
}
