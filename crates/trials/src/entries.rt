// The cases of `reading` and `printing`. Before a case every word of a table that is read into is 4294967295, and every byte of an output is `~`;
// where a word after the tree's is not 0 in the end, on a refusal any word, the answer ends in `not cleared`, and where a byte after the print is
// another, on a refusal any byte, in `touched`.
// The cases are not inlined: their buffers would be in the frame of `main`, which is on the stack at every print.
use crate::lines::tail;
use crate::numbers::number;
use crate::pieces::{DIGITS, TEXT, WORDS, build, with_words};
use crate::show::{print, print_bytes, print_count, print_refusal, print_words};
use crate::slices::{are, most};
use printing::PrintByError;
use reading::Refusal;
use std::io;
use std::io::Write;

// More bytes than an entry writes.
const BYTES: usize = 65600;

// The answer of the last of so many runs, or of one, from an input into an output.
pub(crate) fn repeated<I: Copy, T, R: Drop, F: FnMut(I, &mut [T]) -> R>(
    times: Option<u32>,
    input: I,
    output: &mut [T],
    mut run: F,
) -> R
    requires { F.IsAlwaysCallable run }
{
    let mut answer = run(input, output);
    for _ in 1..times.unwrap_or(1) {
        answer = run(input, output);
    }
    answer
}

// What stands in an output before a case, what it is counted in, and the note where another item stands past what was given.
#[derive(Clone, Copy)]
pub(crate) struct Output<T> {
    blank: T,
    unit: &'static [u8],
    note: &'static [u8],
}

// That of a table.
const TABLE: Output<u32> = Output {
    blank: 0,
    unit: b" words",
    note: b" not cleared",
};

// That of bytes.
pub(crate) const OUTPUT: Output<u8> = Output {
    blank: b'~',
    unit: b" bytes",
    note: b" touched",
};

// Prints how much was given, and of one run what it is; or a refusal's number and place.
pub(crate) fn answered<W: Write, T: PartialEq + Copy, F: FnOnce(&mut W, &[T]) -> io::Result<()>>(
    to: &mut W,
    times: Option<u32>,
    answer: Result<usize, (u64, usize)>,
    given: &[T],
    output: Output<T>,
    show: F,
) -> io::Result<()>
    requires { F.IsAlwaysCallable show }
{
    let n = match answer {
        Ok(n) => {
            if times.is_none() {
                show(to, given.get(..n).unwrap_or(given))?;
            } else {
                print_count(to, n, output.unit)?;
            }
            n
        }
        Err((number, place)) => {
            print_refusal(to, number, place)?;
            0
        }
    };
    if are(given.get(n..).unwrap_or(&[]), &output.blank) {
        return Ok(());
    }
    print(to, output.note)
}

// The words of the table, and the text.
#[inline(never)]
pub(crate) fn read_case<F: FnMut(&[u8], &mut [u32]) -> Result<usize, Refusal>>(
    to: &mut impl Write,
    times: Option<u32>,
    rest: &[u8],
    read: F,
) -> io::Result<()>
    requires { F.IsAlwaysCallable read }
{
    let mut text = [0u8; TEXT];
    let mut table = [4294967295u32; WORDS];
    let size = number(rest);
    let n = build(tail(rest, size.digits), &mut text);
    let table = most(size.value, &mut table);
    let answer = repeated(times, &text[..n], table, read);
    answered(
        to,
        times,
        answer.map_err(|refusal| (refusal.reason.number(), refusal.place)),
        table,
        TABLE,
        |to, words| print_words(to, words),
    )
}

// What is printed: a table's words over a text.
#[derive(Clone, Copy)]
pub(crate) struct Source<'a> {
    pub(crate) text: &'a [u8],
    pub(crate) words: &'a [u32],
}

// The bytes of the output, the table, a slash, and the text.
pub(crate) fn print_case<F: FnMut(Source, &mut [u8]) -> Result<usize, PrintByError>>(
    to: &mut impl Write,
    times: Option<u32>,
    rest: &[u8],
    print_tree: F,
) -> io::Result<()>
    requires { F.IsAlwaysCallable print_tree }
{
    with_words::<WORDS, DIGITS, _, _>(rest, |size, words, line| {
        print_over(to, times, size, line, words, print_tree)
    })
}

// A table's print over the text of a line. The text and the output are made when the table is: they take the stack that making it took.
#[inline(never)]
fn print_over<F: FnMut(Source, &mut [u8]) -> Result<usize, PrintByError>>(
    to: &mut impl Write,
    times: Option<u32>,
    size: u32,
    line: &[u8],
    words: &[u32],
    print_tree: F,
) -> io::Result<()>
    requires { F.IsAlwaysCallable print_tree }
{
    let mut text = [0u8; TEXT];
    let mut out = [b'~'; BYTES];
    let n = build(line, &mut text);
    let out = most(size, &mut out);
    let source = Source {
        text: &text[..n],
        words,
    };
    let answer = repeated(times, source, out, print_tree);
    answered(
        to,
        times,
        answer.map_err(|error| (error.number(), error.place())),
        out,
        OUTPUT,
        |to, bytes| print_bytes(to, bytes),
    )
}
