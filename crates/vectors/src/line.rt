// A line: the vector that its whole fields make, and the field that is open.
use crate::field::{Field, PART_LIMIT, Stop};
use crate::vector::{Hashed, Vector};
use std::mem;

#[derive(Drop)]
pub(crate) struct Line {
    // The open field, or why the line is read no further.
    field: Result<Field, Stop>,
    // The open field's bytes, as far as they came.
    space: [u8; PART_LIMIT],
    vector: Vector,
}

impl Line {
    // Before its first byte.
    pub(crate) fn new() -> Line {
        Line {
            field: Ok(Field::Start),
            space: [0u8; PART_LIMIT],
            vector: Vector::new(),
        }
    }

    // One byte more, which does not end the line.
    pub(crate) fn step(&mut self, b: u8) {
        self.field = if b == b' ' {
            self.next()
        } else {
            self.longer(b)
        };
    }

    // The open field, with one byte more.
    fn longer(&mut self, b: u8) -> Result<Field, Stop> {
        self.field?.step(b, &mut self.space)
    }

    // The open field ends and goes into the vector, and the next one is open.
    fn next(&mut self) -> Result<Field, Stop> {
        let n = self.field?.ended(&mut self.space)?;
        let bytes = self.space.get(..n).ok_or(Stop::Wrong)?;
        self.vector.add(bytes)?;
        Ok(Field::Digits(0))
    }

    // What the line comes to at its end, where the next one begins.
    pub(crate) fn ended(&mut self) -> Result<Hashed, Stop> {
        let last = self.next();
        let vector = mem::replace(&mut self.vector, Vector::new());
        self.field = Ok(Field::Start);
        last?;
        vector.hashed()
    }

    // Whether nothing of it has come.
    pub(crate) fn is_empty(&self) -> bool {
        matches!(self.field, Ok(Field::Start))
    }
}
