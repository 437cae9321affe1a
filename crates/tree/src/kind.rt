// The kinds that may be expected at a word of a table, with their numbers (REFERENCE, "The outline of a table").
ghost use Rattle.std.specs.Prelude.{◌≡◌};
ghost use Rattle.tree.specs.Tally.{sequence};
ghost use Rattle.tree.specs.KindCodes.{as_kind, kind_code};
ghost use Rattle.tree.specs.Codes.{Converts};

use crate::word::Unknown;

// The number of a name's and a natural's second word, which has no kind.
// Kept: it stands in an outline, a slice of numbers, just where no kind does; as one more kind each match over kinds would have an arm for it.
pub const SECOND_WORD: u16 = 0;

// What may be expected at a word.
#[derive(Clone, Copy, PartialEq, Eq, PartialOrd, Ord, Debug)]
pub enum Kind {
    // What one word says.
    Bool = 1,
    Operator = 2,
    Mode = 3,
    // What begins with a constructor's word.
    Expr = 4,
    Stmt = 5,
    AExpr = 6,
    // Options.
    OptionName = 7,
    OptionExpr = 8,
    OptionStmt = 9,
    OptionDefinition = 10,
    // Sequences; before each item, and at the end, stands the sequence's mark.
    Names = 11,
    Exprs = 12,
    Bindings = 13,
    Patterns = 14,
    ClosureBindings = 15,
    ClosureProperties = 16,
    Stmts = 17,
    CallArguments = 18,
    Cases = 19,
    AExprs = 20,
    Taggers = 21,
    FParameters = 22,
    Functions = 23,
    Axioms = 24,
    PParameters = 25,
    Procedures = 26,
    // What two words say.
    Name = 27,
    Natural = 28,
}

impl From<Kind> for u16 {
    ghost from_gives = { λ kind number. number ≡ kind_code kind };

    fn from(kind: Kind) -> u16 {
        kind as u16
    }
}

impl TryFrom<u16> for Kind {
    type Error = Unknown;

    ghost try_from_gives = { λ number kind. Converts kind_code number kind };

    fn try_from(number: u16) -> Result<Kind, Unknown> {
        match number {
            1 => Ok(Kind::Bool),
            2 => Ok(Kind::Operator),
            3 => Ok(Kind::Mode),
            4 => Ok(Kind::Expr),
            5 => Ok(Kind::Stmt),
            6 => Ok(Kind::AExpr),
            7 => Ok(Kind::OptionName),
            8 => Ok(Kind::OptionExpr),
            9 => Ok(Kind::OptionStmt),
            10 => Ok(Kind::OptionDefinition),
            11 => Ok(Kind::Names),
            12 => Ok(Kind::Exprs),
            13 => Ok(Kind::Bindings),
            14 => Ok(Kind::Patterns),
            15 => Ok(Kind::ClosureBindings),
            16 => Ok(Kind::ClosureProperties),
            17 => Ok(Kind::Stmts),
            18 => Ok(Kind::CallArguments),
            19 => Ok(Kind::Cases),
            20 => Ok(Kind::AExprs),
            21 => Ok(Kind::Taggers),
            22 => Ok(Kind::FParameters),
            23 => Ok(Kind::Functions),
            24 => Ok(Kind::Axioms),
            25 => Ok(Kind::PParameters),
            26 => Ok(Kind::Procedures),
            27 => Ok(Kind::Name),
            28 => Ok(Kind::Natural),
            _ => Err(Unknown),
        }
    }
}

impl Kind {
    // Whether it is a sequence.
    pub(crate) fn is_sequence(self) -> bool
        ensures { result ≡ sequence (as_kind self) }
    {
        Kind::Names <= self && self <= Kind::Procedures
    }
}
