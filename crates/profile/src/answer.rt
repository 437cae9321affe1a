// What is answered of a table: that its program fits, the first breach, or a refusal.
ghost use Rattle.std.specs.Prelude.{◌≡◌};
ghost use Rattle.profile.specs.Answers.{rule_number, judge_error_number, judge_error_place, of_check};

use tree::CheckError;

// The rules, in the order of their numbers.
#[derive(Clone, Copy, PartialEq, Eq, Debug)]
pub enum Rule {
    // No statement is a Reach, an AForall, a Choose or a Probe.
    Statements,
    // Every procedure has a body.
    Bodies,
    // Every loop has an invariant.
    Invariants,
    // An Exit with a label stands inside a statement of that label.
    Labels,
}

impl Rule {
    // The rule's number.
    pub fn number(self) -> u64
        ensures { result ≡ rule_number self }
    {
        match self {
            Rule::Statements => 1,
            Rule::Bodies => 2,
            Rule::Invariants => 3,
            Rule::Labels => 4,
        }
    }
}

// A rule that is broken, and the place of the word where it is: a procedure's first word for `Bodies`, a statement's for the others.
#[derive(Clone, Copy, PartialEq, Eq, Debug)]
pub struct Breach {
    pub rule: Rule,
    pub place: usize,
}

// What is judged of a program.
#[derive(Clone, Copy, PartialEq, Eq, Debug)]
pub enum Verdict {
    // It keeps all rules.
    Fits,
    // The first breach in word order.
    Breaks(Breach),
}

// Why a table is not judged.
#[derive(Clone, Copy, PartialEq, Eq, Debug)]
pub enum JudgeError {
    // The text or the words are past their limits.
    Oversized,
    // The words aren't one program over the text; the place is that of refusal 7.
    Misfit(usize),
}

// Kept: number and place by methods and no trait, see tidy's `TidyError`.
impl JudgeError {
    // The refusal's number.
    pub fn number(self) -> u64
        ensures { result ≡ judge_error_number self }
    {
        match self {
            JudgeError::Oversized => 6,
            JudgeError::Misfit(_) => 7,
        }
    }

    // The refusal's place.
    pub fn place(self) -> usize
        ensures { result ≡ judge_error_place self }
    {
        match self {
            JudgeError::Oversized => 0,
            JudgeError::Misfit(place) => place,
        }
    }
}

// Kept: as rendering's `PrintError`, whose limits are the same; `CheckError` says nothing of a text.
impl From<CheckError> for JudgeError {
    ghost from_gives = { λ c e. e ≡ of_check c };

    fn from(error: CheckError) -> JudgeError {
        match error {
            CheckError::Misfit(place) => JudgeError::Misfit(place),
            CheckError::TooManyWords => JudgeError::Oversized,
        }
    }
}
