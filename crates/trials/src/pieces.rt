// Texts and tables of repeated pieces. A piece is a number, a byte and what stands up to the next `;`, with the escapes of `lines`; it means so
// many times these bytes: `2 (;1 a;2 )` is `((a))`. A table's bytes are its words in decimal with a byte between them: `2 7 0 1 ;1 1 0` is the
// table 7 0 1 7 0 1 1 0.
ghost use Rattle.std.specs.Prelude.{◌≤◌, ◌<◌, ◌^◌, length};

use crate::lines::{Part, decode, fill, tail, until};
use crate::numbers::number;

// More bytes and words than an entry takes.
pub(crate) const TEXT: usize = 32772;

pub(crate) const WORDS: usize = 16400;

// Ten digits and a byte for each word.
pub(crate) const DIGITS: usize = 180400;

// More bytes and words of spans than `names` takes, and five digits and a byte for each word.
pub(crate) const LONG_TEXT: usize = 65540;

pub(crate) const SPANS: usize = 65540;

pub(crate) const SPAN_DIGITS: usize = 393240;

// Puts the text of a line of pieces at the start of `text`, as much as fits, and answers how long it is.
pub(crate) fn build(line: &[u8], text: &mut [u8]) -> usize
    ensures { result ≤ length text.new }
{
    let mut end = 0;
    for piece in line.split(|b| *b == b';') {
        end += repeat(piece, &mut text[end..]);
    }
    end
}

// Puts a piece at the start of `text`, as much as fits, and answers how long it is.
fn repeat(piece: &[u8], text: &mut [u8]) -> usize
    ensures { result ≤ length text.new }
{
    let count = number(piece);
    let bytes = tail(piece, count.digits);
    if bytes.is_empty() {
        return 0;
    }
    let mut n = 0;
    for _ in 0..count.value {
        n += decode(bytes, &mut text[n..]);
    }
    n
}

// Puts the words of a line of pieces at the start of `table`, as many as fit, by way of their digits, of which there may be so many; answers
// how many words there are.
fn build_words<const DIGITS: usize>(line: &[u8], table: &mut [u32]) -> usize
    requires { DIGITS < 2 ^ 63 }
    ensures { result ≤ length table.new }
{
    let mut digits = [0u8; DIGITS];
    let n = build(line, &mut digits);
    fill(&digits[..n], table, |s| {
        let word = number(s);
        Part {
            value: word.value,
            width: word.digits + 1,
        }
    })
}

// What a line gives that is the words of a table of pieces.
#[inline(never)]
pub(crate) fn with_table<const WORDS: usize, const DIGITS: usize, R, F: FnOnce(&[u32]) -> R>(
    line: &[u8],
    ask: F,
) -> R
    requires small { (WORDS < 2 ^ 61) × (DIGITS < 2 ^ 63) }
    requires asked { F.IsAlwaysCallable ask }
{
    let mut table = [0u32; WORDS];
    let words = build_words::<DIGITS>(line, &mut table);
    ask(&table[..words])
}

// What a line gives that begins with a number, the words of a table of pieces, and a slash, if more follows: by the number, the words, and what
// follows.
#[inline(never)]
pub(crate) fn with_words<
    const WORDS: usize,
    const DIGITS: usize,
    R,
    F: FnOnce(u32, &[u32], &[u8]) -> R,
>(rest: &[u8], ask: F) -> R
    requires small { (WORDS < 2 ^ 61) × (DIGITS < 2 ^ 63) }
    requires asked { F.IsAlwaysCallable ask }
{
    let first = number(rest);
    before_slash::<WORDS, DIGITS, _, _>(tail(rest, first.digits), |words, line| {
        ask(first.value, words, line)
    })
}

// The same of a line that begins with the words.
#[inline(never)]
pub(crate) fn before_slash<
    const WORDS: usize,
    const DIGITS: usize,
    R,
    F: FnOnce(&[u32], &[u8]) -> R,
>(rest: &[u8], ask: F) -> R
    requires small { (WORDS < 2 ^ 61) × (DIGITS < 2 ^ 63) }
    requires asked { F.IsAlwaysCallable ask }
{
    let n = until(rest, b'/');
    with_table::<WORDS, DIGITS, _, _>(&rest[..n], |words| ask(words, tail(rest, n)))
}
