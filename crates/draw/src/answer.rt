// What a draw answers.
ghost use Rattle.std.specs.Prelude.{◌≡◌};
ghost use Rattle.draw.specs.declared.answer.DrawError.TheVariants.{NotWellFormed};
ghost use Rattle.draw.specs.Answer.{error_number, error_place, draw_place, cell_error};

use answers::Numbered;
use shelf::CellError;
use wellformed::check::BookError;

// Errors about a cell of the shelf name the place of its record, from 0.
#[derive(Clone, Copy)]
pub enum DrawError {
    NotWellFormed,
    Overfull,
    WrongLength,
    ShelfEnds(u32),
    TooLong(u32),
    Mismatch(u32),
    Left,
    TooFew,
}

impl Numbered for DrawError {
    ghost number = { error_number };

    fn number(&self) -> u32 {
        match self {
            DrawError::NotWellFormed => 13,
            DrawError::Overfull => 14,
            DrawError::WrongLength => 10,
            DrawError::ShelfEnds(_) => 23,
            DrawError::TooLong(_) => 12,
            DrawError::Mismatch(_) => 24,
            DrawError::Left => 25,
            DrawError::TooFew => 26,
        }
    }
}

impl From<BookError> for DrawError {
    ghost from_gives = { λ error result. result ≡ NotWellFormed };

    fn from(_error: BookError) -> DrawError {
        DrawError::NotWellFormed
    }
}

impl DrawError {
    // What is wrong with a cell, beside the place of its record.
    pub(crate) fn of_cell(error: CellError, place: u32) -> DrawError
        ensures { result ≡ cell_error place error }
    {
        match error {
            CellError::ShelfEnds => DrawError::ShelfEnds(place),
            CellError::TooLong => DrawError::TooLong(place),
            CellError::Mismatch => DrawError::Mismatch(place),
        }
    }

    // The place that it names, 0 where it is not about a cell.
    fn place(self) -> u32
        ensures { result ≡ error_place self }
    {
        match self {
            DrawError::ShelfEnds(place) => place,
            DrawError::TooLong(place) => place,
            DrawError::Mismatch(place) => place,
            _ => 0,
        }
    }
}

// The place handed back beside the number, 0 where the answer is not about a cell.
pub fn place(drawn: &Result<[u8; 32], DrawError>) -> u32
    ensures { result ≡ draw_place drawn.now }
{
    match drawn {
        Ok(_) => 0,
        Err(error) => error.place(),
    }
}
