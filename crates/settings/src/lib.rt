// Print settings as the bytes of a record: three fields, each a one-byte tag, a two-byte length (high byte first) and a content of one byte.

#![tactic(auto)]

mod entry;
mod error;
mod fields;

pub use entry::{read_settings, settings_in, write_settings};
pub use error::{ContentError, RecordError, WriteError};
pub use fields::RECORD_LENGTH;
pub use layout::{Form, Settings};
