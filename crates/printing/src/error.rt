// Why a table is not printed by settings.
ghost use Rattle.std.specs.Prelude.{◌≡◌};
ghost use Rattle.printing.specs.declared.error.PrintByError.TheVariants.{Settings, Print};
ghost use Rattle.printing.specs.BySettings.{print_by_refusal};

use rendering::PrintError;
use settings::RecordError;

#[derive(Clone, Copy, PartialEq, Eq, Debug)]
pub enum PrintByError {
    // The settings are not read.
    Settings(RecordError),
    // The table is not printed by them.
    Print(PrintError),
}

// Kept: number and place by methods and no trait, see tidy's `TidyError`.
impl PrintByError {
    // The refusal's number.
    pub fn number(self) -> u64
        ensures { result ≡ (print_by_refusal self).number }
    {
        match self {
            PrintByError::Settings(error) => error.number(),
            PrintByError::Print(error) => error.number(),
        }
    }

    // The refusal's place: of a settings' refusal in their bytes.
    pub fn place(self) -> usize
        ensures { result ≡ (print_by_refusal self).place }
    {
        match self {
            PrintByError::Settings(error) => error.place(),
            PrintByError::Print(error) => error.place(),
        }
    }
}

impl From<RecordError> for PrintByError {
    ghost from_gives = { λ r e. e ≡ Settings r };

    fn from(cause: RecordError) -> PrintByError {
        PrintByError::Settings(cause)
    }
}

impl From<PrintError> for PrintByError {
    ghost from_gives = { λ p e. e ≡ Print p };

    fn from(cause: PrintError) -> PrintByError {
        PrintByError::Print(cause)
    }
}
