// The cases of `lexing`.
use crate::lines::{decode, tail, until};
use crate::show::{print, print_refusal};
use lexing::{Lexed, Unclosed, blanks};
use std::io;
use std::io::Write;

// More bytes than a case has.
const BYTES: usize = 4096;

pub(crate) fn blanks_case(to: &mut impl Write, rest: &[u8]) -> io::Result<()> {
    match over_text(rest, |text| blanks(text)) {
        Ok(n) => write!(to, " => passed {n}"),
        Err(Unclosed { at }) => write!(to, " => unclosed at {at}"),
    }
}

pub(crate) fn token_case<F: FnOnce(&[u8]) -> Lexed>(
    to: &mut impl Write,
    rest: &[u8],
    lex: F,
) -> io::Result<()>
    requires { F.IsAlwaysCallable lex }
{
    match over_text(rest, lex) {
        Ok(Some(token)) => write!(to, " => ok {} {}", token.value, token.size),
        Ok(None) => print(to, b" => none"),
        Err(refusal) => print_refusal(to, refusal.reason.number(), refusal.place),
    }
}

// What the bytes give that the rest of a line stands for.
#[inline(never)]
fn over_text<R, F: FnOnce(&[u8]) -> R>(rest: &[u8], lex: F) -> R
    requires { F.IsAlwaysCallable lex }
{
    let mut bytes = [0u8; BYTES];
    let n = decode(rest, &mut bytes);
    lex(&bytes[..n])
}

// What a word and the text after it give, which a space parts.
pub(crate) fn split<F: FnOnce(&[u8], &[u8]) -> Lexed>(s: &[u8], lex: F) -> Lexed
    requires { F.IsAlwaysCallable lex }
{
    let n = until(s, b' ');
    lex(&s[..n], tail(s, n))
}
