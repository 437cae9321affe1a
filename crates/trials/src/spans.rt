// The cases of `names`. Before a case every number is 65535. The answer is how many names there are, a slash and the numbers, as the case leaves
// them.
use crate::entries::repeated;
use crate::pieces::{LONG_TEXT, SPAN_DIGITS, SPANS, build, with_words};
use crate::show::print_count;
use crate::slices::{most, print_numbers};
use names::number_spans;
use std::io;
use std::io::Write;

// More numbers than are given.
const NUMBERS: usize = 32772;

// How many numbers, the spans' words, a slash, and the text.
pub(crate) fn names_case(to: &mut impl Write, times: Option<u32>, rest: &[u8]) -> io::Result<()> {
    with_words::<SPANS, SPAN_DIGITS, _, _>(rest, |size, spans, line| {
        number_over(to, times, size, line, spans)
    })
}

// The spans over the text of a line; of repeated runs only how many names there are. The text and the numbers are made when the spans are: they
// take the stack that making them took.
#[inline(never)]
fn number_over(
    to: &mut impl Write,
    times: Option<u32>,
    size: u32,
    line: &[u8],
    spans: &[u32],
) -> io::Result<()> {
    let mut text = [0u8; LONG_TEXT];
    let mut numbers = [65535u16; NUMBERS];
    let n = build(line, &mut text);
    let numbers = most(size, &mut numbers);
    let count = repeated(
        times,
        (&text[..n], spans),
        numbers,
        |(text, spans), numbers| { number_spans(text, spans, numbers) },
    );
    if times.is_some() {
        return print_count(to, count, b" names");
    }
    print_count(to, count, b" /")?;
    print_numbers(to, numbers, b" numbers, CRC-32 ")
}
