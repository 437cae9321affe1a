// Settings of prints: the indent step, and the form of expressions.
ghost use Rattle.std.specs.Prelude.{◌≡◌};
ghost use Rattle.layout.specs.Settings.{format_at};

use crate::format::ExprFormatOption;

pub const INDENT_AMOUNT: u8 = 2;

// The form of the expressions of a print, the numbers as settings write them.
#[derive(Clone, Copy, PartialEq, Eq, Debug)]
pub enum Form {
    // Each on one line.
    OneLine = 0,
    // Broken where Printer.dfy breaks them.
    Broken = 1,
}

#[derive(Clone, Copy, PartialEq, Eq, Debug)]
pub struct Settings {
    // The spaces of one indent.
    pub step: u8,
    // That of expressions, of function bodies and axioms in a program; its other expressions stand on one line.
    pub form: Form,
}

impl Form {
    // The format of an expression whose lines start from an indent.
    pub fn at(self, indent: usize) -> ExprFormatOption
        ensures { result ≡ format_at self indent }
    {
        match self {
            Form::OneLine => ExprFormatOption::SingleLine,
            Form::Broken => ExprFormatOption::MultipleLines(indent),
        }
    }
}

impl Settings {
    // Upstream's.
    pub const DEFAULT: Settings = Settings {
        step: INDENT_AMOUNT,
        form: Form::Broken,
    };

    // Its step, and every expression on one line.
    pub const ONE_LINE: Settings = Settings {
        form: Form::OneLine,
        ..Settings::DEFAULT
    };
}
