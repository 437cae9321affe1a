// The prints of B3 in a buffer.

#![tactic(auto)]

mod entry;
mod expression;
mod items;
mod operator;
mod parts;
mod printer;
mod program;
mod setting;
mod simple;
mod statement;

ghost use Rattle.std.specs.Prelude.{◌≡◌};
ghost use Rattle.rendering.specs.Errors.{print_error_number, print_error_place, of_check};

pub use entry::render;
use tree::CheckError;

// The tree that a table is to hold.
// Kept: beside parsing's `Whole`, of which this crate knows nothing, and with the start indent of an expression.
#[derive(Clone, Copy, PartialEq, Eq, Debug)]
pub enum Root {
    // An expression, whose lines start from an indent.
    AnExpression(usize),
    AProgram,
}

// Why a table is not printed.
#[derive(Clone, Copy, PartialEq, Eq, Debug)]
pub enum PrintError {
    // The text, the words or the start indent are past their limits.
    Oversized,
    // The words aren't one tree over the text; the place is that of refusal 7.
    Misfit(usize),
    // The print is longer than where it is to stand, or than a print may be.
    TooLong,
}

// Kept: number and place by methods and no trait, see tidy's `TidyError`.
impl PrintError {
    // The refusal's number.
    pub fn number(self) -> u64
        ensures { result ≡ print_error_number self }
    {
        match self {
            PrintError::Oversized => 6,
            PrintError::Misfit(_) => 7,
            PrintError::TooLong => 8,
        }
    }

    // The refusal's place.
    pub fn place(self) -> usize
        ensures { result ≡ print_error_place self }
    {
        match self {
            PrintError::Misfit(place) => place,
            PrintError::Oversized | PrintError::TooLong => 0,
        }
    }
}

impl From<CheckError> for PrintError {
    ghost from_gives = { λ c e. e ≡ of_check c };

    fn from(error: CheckError) -> PrintError {
        match error {
            CheckError::Misfit(place) => PrintError::Misfit(place),
            CheckError::TooManyWords => PrintError::Oversized,
        }
    }
}
