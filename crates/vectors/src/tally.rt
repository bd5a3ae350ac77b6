// What the lines of a file came to.
use crate::field::Stop;
use crate::vector::Hashed;
use std::io;
use streams::count_named;
use verdict::count::one_more;
use verdict::equal::Verdict;

#[derive(Drop)]
pub(crate) struct Tally {
    lines: u64,
    equal: u64,
    differ: u64,
    several: u64,
    not_understood: u64,
}

impl Tally {
    // Before the first line.
    pub(crate) fn new() -> Tally {
        Tally {
            lines: 0,
            equal: 0,
            differ: 0,
            several: 0,
            not_understood: 0,
        }
    }

    // One line more, named where it is not as it should be.
    pub(crate) fn add(&mut self, rt: &impl Print, line: Result<Hashed, Stop>) -> io::Result<()> {
        self.lines = one_more(self.lines);
        match line {
            Ok(hashed) => self.add_hashed(rt, hashed),
            Err(Stop::Comment) => Ok(()),
            Err(Stop::Wrong) => count_named(
                rt,
                &mut self.not_understood,
                "line",
                self.lines,
                "is not understood",
            ),
        }
    }

    fn add_hashed(&mut self, rt: &impl Print, hashed: Hashed) -> io::Result<()> {
        match hashed.verdict {
            Verdict::Equal => self.equal = one_more(self.equal),
            Verdict::Differs => count_named(rt, &mut self.differ, "line", self.lines, "differs")?,
        }
        if hashed.parts > 1 {
            self.several = one_more(self.several);
        }
        Ok(())
    }

    // Three lines, the last of which should begin with 0.
    pub(crate) fn report(&self, rt: &impl Print) -> io::Result<()> {
        println!(rt;
            "Keccak-256 vectors: {} equal, {} differ",
            self.equal, self.differ
        )?;
        println!(rt; "{} lines in several parts", self.several)?;
        println!(rt; "{} lines not understood", self.not_understood)
    }
}
