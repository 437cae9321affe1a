// The cases of `tree`.
use crate::lines::tail;
use crate::numbers::number;
use crate::pieces::{DIGITS, WORDS, with_table};
use crate::show::{print, print_number};
use std::io;
use std::io::Write;
use tree::CheckError;

// The length of a text, and a table.
pub(crate) fn check_case<F: FnOnce(&[u32], usize) -> Result<(), CheckError>>(
    to: &mut impl Write,
    rest: &[u8],
    check: F,
) -> io::Result<()>
    requires { F.IsAlwaysCallable check }
{
    print(to, b" => ")?;
    print_checked(to, over_table(rest, check))
}

// A place, and a table.
pub(crate) fn number_case<F: FnOnce(&[u32], usize) -> u64>(
    to: &mut impl Write,
    rest: &[u8],
    get: F,
) -> io::Result<()>
    requires { F.IsAlwaysCallable get }
{
    print(to, b" => ")?;
    print_number(to, over_table(rest, get))
}

// What a table gives with the number that stands before it.
fn over_table<R, F: FnOnce(&[u32], usize) -> R>(rest: &[u8], ask: F) -> R
    requires { F.IsAlwaysCallable ask }
{
    let first = number(rest);
    with_table::<WORDS, DIGITS, _, _>(tail(rest, first.digits), |words| {
        ask(words, first.value as usize)
    })
}

pub(crate) fn print_checked(to: &mut impl Write, answer: Result<(), CheckError>) -> io::Result<()> {
    match answer {
        Ok(()) => print(to, b"tree"),
        Err(CheckError::Misfit(place)) => write!(to, "misfit {place}"),
        Err(CheckError::TooManyWords) => print(to, b"too long"),
    }
}

// A name's start and length, and the text.
pub(crate) fn name_case(to: &mut impl Write, rest: &[u8]) -> io::Result<()> {
    let start = number(rest);
    let after = tail(rest, start.digits);
    let length = number(after);
    print(to, b" => <")?;
    print(
        to,
        tree::name(tail(after, length.digits), start.value, length.value),
    )?;
    print(to, b">")
}
