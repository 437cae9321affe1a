// Bytes as two hexadecimal digits each, printed in lower case; `-` for none.
ghost use Rattle.std.specs.Prelude.{◌<◌, ◌≤◌, length};

use crate::lines::{Part, fill, tail, until};
use crate::show::print;
use std::io;
use std::io::Write;

// More bytes than a case of settings has.
const MOST: usize = 64;

// The byte of two digits, of others as of 0.
pub(crate) fn hex_byte(high: u8, low: u8) -> u8 {
    hex_digit(high) * 16 + hex_digit(low)
}

fn hex_digit(b: u8) -> u8
    ensures { result < 16 }
{
    match b {
        b'0'..=b'9' => b - b'0',
        b'a'..=b'f' => b - b'a' + 10,
        b'A'..=b'F' => b - b'A' + 10,
        _ => 0,
    }
}

// Puts the bytes of digits at the start of `out`, as many as fit, and answers how many there are.
fn decode_hex(digits: &[u8], out: &mut [u8]) -> usize
    ensures { result ≤ length out.new }
{
    fill(
        digits,
        out,
        |s| Part {
            value: match s {
                [high, low, ..] => hex_byte(*high, *low),
                _ => 0,
            },
            width: 2,
        },
    )
}

// What a line gives that begins with bytes, a space after them, if more follows: by the bytes and what follows.
#[inline(never)]
pub(crate) fn with_hex<R, F: FnOnce(&[u8], &[u8]) -> R>(rest: &[u8], ask: F) -> R
    requires { F.IsAlwaysCallable ask }
{
    let mut bytes = [0u8; MOST];
    let width = until(rest, b' ');
    let n = match &rest[..width] {
        [b'-'] => 0,
        digits => decode_hex(digits, &mut bytes),
    };
    ask(&bytes[..n], tail(rest, width))
}

pub(crate) fn print_hex(to: &mut impl Write, bytes: &[u8]) -> io::Result<()> {
    print(to, b" => ")?;
    if bytes.is_empty() {
        return print(to, b"-");
    }
    for b in bytes {
        write!(to, "{b:02x}")?;
    }
    Ok(())
}
