// The cases of `settings`. Before one that reads, the settings have a step of 255, which no reading gives, and the form of one line; they are answered
// as the case leaves them.
use crate::entries::{OUTPUT, answered, repeated};
use crate::hex::{print_hex, with_hex};
use crate::lines::tail;
use crate::numbers::number;
use crate::show::{print, print_refusal};
use crate::slices::most;
use settings::{Form, Settings, read_settings, write_settings};
use std::io;
use std::io::Write;

// More bytes than are written.
const BYTES: usize = 64;

// The bytes of a record.
pub(crate) fn settings_case(to: &mut impl Write, rest: &[u8]) -> io::Result<()> {
    let mut settings = Settings {
        step: 255,
        form: Form::OneLine,
    };
    let answer = with_hex(rest, |bytes, _| read_settings(bytes, &mut settings));
    match answer {
        Ok(()) => print(to, b" =>")?,
        Err(error) => print_refusal(to, error.number(), error.place())?,
    }
    write!(to, " {} {}", settings.step, settings.form as u8)
}

// A step, a form, and the bytes of the output.
pub(crate) fn record_case(to: &mut impl Write, times: Option<u32>, rest: &[u8]) -> io::Result<()> {
    let step = number(rest);
    let after = tail(rest, step.digits);
    let form = number(after);
    let size = number(tail(after, form.digits));
    let mut out = [b'~'; BYTES];
    let out = most(size.value, &mut out);
    let contents = (step.value as usize, form.value as usize);
    let answer = repeated(times, contents, out, |(step, form), out| {
        write_settings(step, form, out)
    });
    answered(
        to,
        times,
        answer.map_err(|error| (error.number(), error.place())),
        out,
        OUTPUT,
        |to, bytes| print_hex(to, bytes),
    )
}
