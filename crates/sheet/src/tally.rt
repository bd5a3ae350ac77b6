// What the examples came to. A line is an example in document 01's words, what was expected, what came, and the verdict.
use std::fmt::Display;
use std::{fmt, io};
use verdict::count::one_more;
use verdict::equal::{Verdict, judged};

#[derive(Drop)]
pub(crate) struct Tally {
    equal: u64,
    differ: u64,
}

impl Tally {
    // Before the first example.
    pub(crate) fn new() -> Tally {
        Tally {
            equal: 0,
            differ: 0,
        }
    }

    // One example more, of two numbers.
    pub(crate) fn add<T: PartialEq + Display + Drop>(
        &mut self,
        rt: &impl Print,
        example: &str,
        expected: T,
        came: T,
    ) -> io::Result<()> {
        self.judge(rt, example, &expected, &came, judged(&expected, &came))
    }

    // One of bytes. The bytes are judged, and only shown in hexadecimal: of them `verdict` says what is equal.
    pub(crate) fn bytes<const N: usize>(
        &mut self,
        rt: &impl Print,
        example: &str,
        expected: [u8; N],
        came: [u8; N],
    ) -> io::Result<()> {
        let verdict = judged(&expected, &came);
        self.judge(rt, example, &Hex(expected), &Hex(came), verdict)
    }

    // An example's line, which ends with the verdict.
    fn judge<T: Display>(
        &mut self,
        rt: &impl Print,
        example: &str,
        expected: &T,
        came: &T,
        verdict: Verdict,
    ) -> io::Result<()> {
        print!(rt; "{example}: expected {expected}, came {came}")?;
        match verdict {
            Verdict::Equal => {
                self.equal = one_more(self.equal);
                println!(rt; ", equal")
            }
            Verdict::Differs => {
                self.differ = one_more(self.differ);
                println!(rt; ", DIFFERS")
            }
        }
    }

    // The last line.
    pub(crate) fn report(&self, rt: &impl Print) -> io::Result<()> {
        println!(rt;
            "Settled examples: {} equal, {} differ",
            self.equal, self.differ
        )
    }
}

// Bytes in hexadecimal, two digits each.
#[derive(Drop)]
struct Hex<const N: usize>([u8; N]);

impl<const N: usize> Display for Hex<N> {
    fn fmt<W: fmt::Write>(&self, f: &mut fmt::Formatter<W>) -> fmt::Result {
        for byte in &self.0 {
            write!(f, "{byte:02x}")?;
        }
        Ok(())
    }
}
