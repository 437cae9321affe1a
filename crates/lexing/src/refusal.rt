// Why a text is refused, and where.
ghost use Rattle.std.specs.Prelude.{◌≡◌};
ghost use Rattle.lexing.specs.CodeAnswers.{number};
ghost use Rattle.lexing.specs.declared.refusal.Reason.TheVariants.{UnclosedComment};

use crate::blank::Unclosed;

#[derive(Clone, Copy, PartialEq, Eq, Debug)]
pub enum Reason {
    // The text is longer than it may be.
    TextTooLong,
    // The rules can't go on.
    UnusableToken,
    // One level more than may be would be opened.
    LevelTooDeep,
    // A natural is above the largest.
    LargeNatural,
    // The tree has more words than the table, or than a table may have.
    TreeTooLarge,
    // A long comment is not closed.
    UnclosedComment,
    // The text ends where more must follow.
    EndedTooSoon,
}

impl Reason {
    // The refusal's number.
    pub fn number(self) -> u64
        ensures { result ≡ number self }
    {
        match self {
            Reason::TextTooLong => 1,
            Reason::UnusableToken => 2,
            Reason::LevelTooDeep => 3,
            Reason::LargeNatural => 4,
            Reason::TreeTooLarge => 5,
            Reason::UnclosedComment => 12,
            Reason::EndedTooSoon => 13,
        }
    }
}

#[derive(Clone, Copy, PartialEq, Eq, Debug)]
pub struct Refusal {
    pub reason: Reason,
    pub place: usize,
}

impl Refusal {
    pub fn new(reason: Reason, place: usize) -> Refusal
        ensures { result ≡ record { reason = reason; place = place } }
    {
        Refusal { reason, place }
    }
}

impl From<Unclosed> for Refusal {
    ghost from_gives = { λ u r. r ≡ record { reason = UnclosedComment; place = u.at } };

    fn from(open: Unclosed) -> Refusal {
        Refusal::new(Reason::UnclosedComment, open.at)
    }
}
