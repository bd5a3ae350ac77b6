// What the cases came to, call by call.
use std::io;
use streams::count_named;
use verdict::count::one_more;
use verdict::equal::Verdict;

// The calls, whose numbers begin with 1.
const CALLS: [&str; 18] = [
    "keccak256",
    "sponge",
    "absorb",
    "finish",
    "address",
    "anchored_address",
    "segment_count",
    "segment",
    "make_proof",
    "check_proof",
    "nearness",
    "stamp_digest",
    "check_stamp",
    "open",
    "check_book",
    "higher",
    "offer",
    "draw",
];

// How many cases of one call are as they should be, and how many are not.
#[derive(Clone, Copy)]
struct Count {
    equal: u64,
    differ: u64,
}

impl Count {
    fn add(&mut self, verdict: Verdict) {
        match verdict {
            Verdict::Equal => self.equal = one_more(self.equal),
            Verdict::Differs => self.differ = one_more(self.differ),
        }
    }
}

#[derive(Drop)]
pub(crate) struct Tally {
    // How many cases the file names, and how many were run.
    named: u64,
    run: u64,
    calls: [Count; 18],
    differing: u64,
    not_understood: u64,
}

impl Tally {
    // Before the first case.
    pub(crate) fn new(named: u64) -> Tally {
        let none = Count {
            equal: 0,
            differ: 0,
        };
        Tally {
            named,
            run: 0,
            calls: [none; 18],
            differing: 0,
            not_understood: 0,
        }
    }

    // One case more, named where it is not as it should be, or not understood.
    pub(crate) fn add(
        &mut self,
        rt: &impl Print,
        call: u8,
        verdict: Option<Verdict>,
    ) -> io::Result<()> {
        self.run = one_more(self.run);
        let Some(verdict) = verdict else {
            return count_named(
                rt,
                &mut self.not_understood,
                "case",
                self.run,
                "is not understood",
            );
        };
        if let Some(count) = self.calls.get_mut(usize::from(call).saturating_sub(1)) {
            count.add(verdict);
        }
        match verdict {
            Verdict::Equal => Ok(()),
            Verdict::Differs => count_named(rt, &mut self.differing, "case", self.run, "differs"),
        }
    }

    // A line a call, then how many cases there were, and how many of them had no verdict.
    pub(crate) fn report(&self, rt: &impl Print) -> io::Result<()> {
        for (call, count) in CALLS.iter().zip(&self.calls) {
            println!(rt; "{call}: {} equal, {} differ", count.equal, count.differ)?;
        }
        println!(rt;
            "{} cases run of {} that the file names",
            self.run, self.named
        )?;
        println!(rt; "{} differ", self.differing)?;
        println!(rt; "{} not understood", self.not_understood)
    }
}
