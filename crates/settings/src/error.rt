// Why settings are not read, or not written.
ghost use Rattle.std.specs.Prelude.{◌≡◌};
ghost use Rattle.settings.specs.declared.error.RecordError.TheVariants.{Content as RecordContent};
ghost use Rattle.settings.specs.declared.error.WriteError.TheVariants.{Content as WriteContent};
ghost use Rattle.settings.specs.Errors.{content_refusal, record_refusal, write_refusal};

use crate::fields::{FORM_PLACE, STEP_PLACE};

// A content is outside its range.
#[derive(Clone, Copy, PartialEq, Eq, Debug)]
pub enum ContentError {
    // The indent step is not 1 to 8.
    Step,
    // The form is neither 0 nor 1.
    Form,
}

// Why a record is not read.
#[derive(Clone, Copy, PartialEq, Eq, Debug)]
pub enum RecordError {
    // The fields are not as laid out: the place of the first bad byte, or the byte count where bytes are missing.
    Layout(usize),
    // The version is not 1.
    Version,
    Content(ContentError),
}

// Why settings are not written.
#[derive(Clone, Copy, PartialEq, Eq, Debug)]
pub enum WriteError {
    Content(ContentError),
    // The output is shorter than a record.
    TooShort,
}

// Kept: number and place by methods and no trait, see tidy's `TidyError`.
impl ContentError {
    // The refusal's number.
    pub fn number(self) -> u64
        ensures { result ≡ (content_refusal self).number }
    {
        match self {
            ContentError::Step | ContentError::Form => 11,
        }
    }

    // The refusal's place.
    pub fn place(self) -> usize
        ensures { result ≡ (content_refusal self).place }
    {
        match self {
            ContentError::Step => STEP_PLACE,
            ContentError::Form => FORM_PLACE,
        }
    }
}

impl RecordError {
    // The refusal's number.
    pub fn number(self) -> u64
        ensures { result ≡ (record_refusal self).number }
    {
        match self {
            RecordError::Layout(_) => 9,
            RecordError::Version => 10,
            RecordError::Content(error) => error.number(),
        }
    }

    // The refusal's place.
    pub fn place(self) -> usize
        ensures { result ≡ (record_refusal self).place }
    {
        match self {
            RecordError::Layout(place) => place,
            RecordError::Version => 0,
            RecordError::Content(error) => error.place(),
        }
    }
}

impl WriteError {
    // The refusal's number.
    pub fn number(self) -> u64
        ensures { result ≡ (write_refusal self).number }
    {
        match self {
            WriteError::Content(error) => error.number(),
            WriteError::TooShort => 8,
        }
    }

    // The refusal's place.
    pub fn place(self) -> usize
        ensures { result ≡ (write_refusal self).place }
    {
        match self {
            WriteError::Content(error) => error.place(),
            WriteError::TooShort => 0,
        }
    }
}

impl From<ContentError> for RecordError {
    ghost from_gives = { λ c e. e ≡ RecordContent c };

    fn from(error: ContentError) -> RecordError {
        RecordError::Content(error)
    }
}

impl From<ContentError> for WriteError {
    ghost from_gives = { λ c e. e ≡ WriteContent c };

    fn from(error: ContentError) -> WriteError {
        WriteError::Content(error)
    }
}
