// Why a text is not tidied.
ghost use Rattle.std.specs.Prelude.{◌≡◌, Some};
ghost use Rattle.tidy.specs.declared.error.TidyError.TheVariants.{Read, Print};
ghost use Rattle.tidy.specs.Errors.{error_number, error_place, error_text};

use printing::PrintError;
use reading::Refusal;
use std::error::Error;
use std::fmt;

#[derive(Clone, Copy, PartialEq, Eq, Debug)]
pub enum TidyError {
    // It is not read.
    Read(Refusal),
    // Its print does not fit.
    Print(PrintError),
}

// Kept: a trait of number and place would make no caller plainer, as none is generic over errors, and `tree` and `lexing` share no crate for it.
impl TidyError {
    // The refusal's number.
    pub fn number(self) -> u64
        ensures { result ≡ error_number self }
    {
        match self {
            TidyError::Read(refusal) => refusal.reason.number(),
            TidyError::Print(error) => error.number(),
        }
    }

    // The refusal's place.
    pub fn place(self) -> usize
        ensures { result ≡ error_place self }
    {
        match self {
            TidyError::Read(refusal) => refusal.place,
            TidyError::Print(error) => error.place(),
        }
    }
}

impl fmt::Display for TidyError {
    ghost output = { λ e. Some (error_text e) };

    fn fmt<W: fmt::Write>(&self, f: &mut fmt::Formatter<W>) -> fmt::Result {
        write!(f, "refused {} at {}", self.number(), self.place())
    }
}

impl Error for TidyError {}

impl From<Refusal> for TidyError {
    ghost from_gives = { λ r e. e ≡ Read r };

    fn from(refusal: Refusal) -> TidyError {
        TidyError::Read(refusal)
    }
}

impl From<PrintError> for TidyError {
    ghost from_gives = { λ p e. e ≡ Print p };

    fn from(error: PrintError) -> TidyError {
        TidyError::Print(error)
    }
}
