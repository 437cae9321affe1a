// Reading and writing of settings.
ghost use Rattle.std.specs.Prelude.{◌≡◌};
ghost use Rattle.settings.specs.Errors.{content_refusal, record_refusal, write_refusal};
ghost use Rattle.settings.specs.Answers.{answer_of, outcome_of};
ghost use Rattle.settings.specs.Records.{with_step, settings_of, of_contents, settings_in, read_settings, write_settings};

use crate::error::{ContentError, RecordError, WriteError};
use crate::fields::{
    FORM_PLACE, LAYOUT, RECORD_LENGTH, STEP_PLACE, VERSION, VERSION_PLACE, misplaced,
    settings_bytes,
};
use layout::{Form, Settings};

// The range of the indent step.
const LEAST_STEP: usize = 1;

const MOST_STEP: usize = 8;

// The settings of a step in range and a form.
fn with_step(step: u8, form: usize) -> Result<Settings, ContentError>
    ensures { answer_of content_refusal result ≡ with_step step form }
{
    let form = match form {
        0 => Form::OneLine,
        1 => Form::Broken,
        _ => return Err(ContentError::Form),
    };
    Ok(Settings { step, form })
}

// The settings of a step and a form; the step is judged first.
fn settings_of(step: usize, form: usize) -> Result<Settings, ContentError>
    ensures { answer_of content_refusal result ≡ settings_of step form }
{
    if step < LEAST_STEP || MOST_STEP < step {
        return Err(ContentError::Step);
    }
    with_step(step as u8, form)
}

// The settings of the contents of a record; the version is judged first.
fn of_contents(version: u8, step: u8, form: u8) -> Result<Settings, RecordError>
    ensures { answer_of record_refusal result ≡ of_contents version step form }
{
    if version != VERSION {
        return Err(RecordError::Version);
    }
    Ok(settings_of(usize::from(step), usize::from(form))?)
}

// The settings of a record; the layout of all bytes is judged first.
#[tactic(auto, using(crate::proofs::FieldLaws::laid_out_length))]
pub fn settings_in(bytes: &[u8]) -> Result<Settings, RecordError>
    ensures { answer_of record_refusal result ≡ settings_in bytes.now }
{
    match misplaced(&LAYOUT, bytes) {
        Some(place) => Err(RecordError::Layout(place)),
        None => of_contents(bytes[VERSION_PLACE], bytes[STEP_PLACE], bytes[FORM_PLACE]),
    }
}

// Reads settings; after a refusal they are the defaults.
pub fn read_settings(bytes: &[u8], settings: &mut Settings) -> Result<(), RecordError>
    ensures { outcome_of record_refusal result settings.new ≡ read_settings bytes.now }
{
    *settings = Settings::DEFAULT;
    *settings = settings_in(bytes)?;
    Ok(())
}

// Writes the record of a step and a form to the start of the output, and answers its length; a refusal leaves the output as it was.
pub fn write_settings(step: usize, form: usize, out: &mut [u8]) -> Result<usize, WriteError>
    ensures { outcome_of write_refusal result out.new ≡ write_settings step form out.old }
{
    let settings = settings_of(step, form)?;
    if out.len() < RECORD_LENGTH {
        return Err(WriteError::TooShort);
    }
    out[..RECORD_LENGTH].copy_from_slice(&settings_bytes(settings));
    Ok(RECORD_LENGTH)
}
