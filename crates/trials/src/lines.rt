// Parts of a line, and the escapes in it.
ghost use Rattle.std.specs.Prelude.{◌≤◌, ◌<◌, length};

use crate::hex::hex_byte;

// How many bytes stand before the first `b`, or all.
pub(crate) fn until(s: &[u8], b: u8) -> usize
    ensures { result ≤ length s.now }
{
    s.iter().position(|x| *x == b).unwrap_or(s.len())
}

// What stands after the byte at `n`, nothing where the text ends before.
pub(crate) fn tail(s: &[u8], n: usize) -> &[u8] {
    match s.get(n..) {
        Some([_, rest @ ..]) => rest,
        _ => &s[..0],
    }
}

// What a part of a line stands for, and how many bytes the part has.
#[derive(Clone, Copy)]
pub(crate) struct Part<T> {
    pub(crate) value: T,
    pub(crate) width: usize,
}

// The byte that stands at the start of a line: `\n`, `\t`, `\r`; `\x` with two hexadecimal digits, in lower case; a backslash before any other
// byte for that byte; every other byte for itself.
fn escaped(s: &[u8]) -> Part<u8>
    ensures taken { 0 < result.width }
    ensures inside { 0 < length s.now → result.width ≤ length s.now }
{
    match s {
        [b'\\', b'x', high, low, ..] => Part {
            value: hex_byte(*high, *low),
            width: 4,
        },
        [b'\\', b, ..] => Part {
            value: control(*b),
            width: 2,
        },
        _ => Part {
            value: s.first().copied().unwrap_or(0),
            width: 1,
        },
    }
}

fn control(b: u8) -> u8 {
    match b {
        b'n' => b'\n',
        b't' => b'\t',
        b'r' => b'\r',
        _ => b,
    }
}

// Puts what the parts of a line stand for at the start of `out`, as many as fit, and answers how many there are.
pub(crate) fn fill<T: Copy, F: Fn(&[u8]) -> Part<T>>(line: &[u8], out: &mut [T], part: F) -> usize
    requires { F.IsAlwaysCallable part }
    ensures { result ≤ length out.new }
{
    let mut rest = line;
    for (n, place) in out.iter_mut().enumerate() {
        if rest.is_empty() {
            return n;
        }
        let part = part(rest);
        *place = part.value;
        rest = rest.get(part.width..).unwrap_or(&[]);
    }
    out.len()
}

// The bytes that a line stands for.
pub(crate) fn decode(line: &[u8], out: &mut [u8]) -> usize
    ensures { result ≤ length out.new }
{
    fill(line, out, |s| escaped(s))
}
