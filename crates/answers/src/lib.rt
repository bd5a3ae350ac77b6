// What a call comes to, as the number that a host in another language is told.
#![tactic(auto)]

ghost use Rattle.std.specs.Prelude.{◌≡◌, ℕ};
ghost use Rattle.answers.specs.Number.{done, answer_number};

// What is answered in document 01's numbers.
pub trait Numbered {
    // The number of each case.
    ghost number: { Self → ℕ };

    fn number(&self) -> u32
        ensures { result ≡ number self.now };
}

// A call that hands back nothing, and refuses nothing, is done: 0 in document 01's table, for this type and the two that follow.
impl Numbered for () {
    ghost number = { done };

    fn number(&self) -> u32 {
        0
    }
}

// A digest is handed back by a call that is done.
impl Numbered for [u8; 32] {
    ghost number = { done };

    fn number(&self) -> u32 {
        0
    }
}

// So are bits that were counted.
impl Numbered for u32 {
    ghost number = { done };

    fn number(&self) -> u32 {
        0
    }
}

// What was done answers for itself, and so does what was refused.
impl<T: Numbered, E: Numbered> Numbered for Result<T, E> {
    ghost number = { answer_number T.number E.number };

    fn number(&self) -> u32 {
        match self {
            Ok(value) => value.number(),
            Err(error) => error.number(),
        }
    }
}
