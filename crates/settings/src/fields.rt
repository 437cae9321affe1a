// The fields of a record: what is fixed of its bytes, and the bytes of settings.
ghost use Rattle.std.specs.Prelude.{◌≡◌};
ghost use Rattle.settings.specs.Fields.{admits, misplaced};
ghost use Rattle.settings.specs.Records.{settings_bytes};

use layout::Settings;

pub const RECORD_LENGTH: usize = 12;

// The version that is written, and the only one that is read.
pub(crate) const VERSION: u8 = 1;

// The places of the contents.
pub(crate) const VERSION_PLACE: usize = 3;

pub(crate) const STEP_PLACE: usize = 7;

pub(crate) const FORM_PLACE: usize = 11;

const VERSION_TAG: u8 = 1;

const STEP_TAG: u8 = 2;

const FORM_TAG: u8 = 3;

// The length of each content.
const LENGTH_HIGH: u8 = 0;

const LENGTH_LOW: u8 = 1;

// The bytes of a record; `None` stands for a content.
pub(crate) const LAYOUT: [Option<u8>; RECORD_LENGTH] = [
    Some(VERSION_TAG),
    Some(LENGTH_HIGH),
    Some(LENGTH_LOW),
    None,
    Some(STEP_TAG),
    Some(LENGTH_HIGH),
    Some(LENGTH_LOW),
    None,
    Some(FORM_TAG),
    Some(LENGTH_HIGH),
    Some(LENGTH_LOW),
    None,
];

// Whether a byte may stand where this is laid out.
fn admits(expected: Option<u8>, byte: u8) -> bool
    ensures { result ≡ admits expected byte }
{
    match expected {
        Some(fixed) => fixed == byte,
        None => true,
    }
}

// The place of the first byte that is not as laid out, or that is missing or too many.
pub(crate) fn misplaced(layout: &[Option<u8>], bytes: &[u8]) -> Option<usize>
    ensures { result ≡ misplaced layout.now 0 bytes.now }
{
    for (i, expected) in layout.iter().enumerate() {
        if i == bytes.len() || !admits(*expected, bytes[i]) {
            return Some(i);
        }
    }
    if layout.len() < bytes.len() {
        Some(layout.len())
    } else {
        None
    }
}

// The record of settings.
pub(crate) fn settings_bytes(settings: Settings) -> [u8; RECORD_LENGTH]
    ensures { result ≡ settings_bytes settings }
{
    let (step, form) = (settings.step, settings.form as u8);
    [
        VERSION_TAG,
        LENGTH_HIGH,
        LENGTH_LOW,
        VERSION,
        STEP_TAG,
        LENGTH_HIGH,
        LENGTH_LOW,
        step,
        FORM_TAG,
        LENGTH_HIGH,
        LENGTH_LOW,
        form,
    ]
}
