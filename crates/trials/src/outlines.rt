// The cases of a table's outline. Before a case every kind is 255, and every end 65535. The answer is what the check finds, a slash and the kinds, a
// slash and the ends, as the case leaves them.
use crate::entries::repeated;
use crate::lines::tail;
use crate::numbers::number;
use crate::pieces::{DIGITS, WORDS, with_table};
use crate::show::{print, print_count};
use crate::slices::{most, print_numbers};
use crate::tables::print_checked;
use std::io;
use std::io::Write;
use tree::outline_program;

// How many kinds and how many ends, the length of the text, and a table.
// Kept: `to` and `times`, here and in `spans` and `entries`, are what a case is given; each goes on in one call.
pub(crate) fn outline_case(to: &mut impl Write, times: Option<u32>, rest: &[u8]) -> io::Result<()> {
    let kinds = number(rest);
    let after = tail(rest, kinds.digits);
    let ends = number(after);
    let after = tail(after, ends.digits);
    let length = number(after);
    with_table::<WORDS, DIGITS, _, _>(tail(after, length.digits), |words| {
        outline_into(
            to,
            times,
            kinds.value,
            ends.value,
            length.value as usize,
            words,
        )
    })
}

// Prints the answer; of repeated runs only how many words the table has. The kinds and the ends are made when the table is: they take the stack
// that making it took.
#[inline(never)]
fn outline_into(
    to: &mut impl Write,
    times: Option<u32>,
    most_kinds: u32,
    most_ends: u32,
    text_len: usize,
    words: &[u32],
) -> io::Result<()> {
    let mut kinds = [255u16; WORDS];
    let mut ends = [65535u16; WORDS];
    let kinds = most(most_kinds, &mut kinds);
    let ends = most(most_ends, &mut ends);
    let answer = repeated(times, words, kinds, |words, kinds| {
        outline_program(words, text_len, kinds, ends)
    });
    if times.is_some() {
        return print_count(to, words.len(), b" words");
    }
    print(to, b" => ")?;
    print_checked(to, answer)?;
    print(to, b" /")?;
    print_numbers(to, kinds, b" kinds, CRC-32 ")?;
    print(to, b" /")?;
    print_numbers(to, ends, b" ends, CRC-32 ")
}
