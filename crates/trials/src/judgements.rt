// The cases of `profile`: a table, a slash, and the text. The answer is `fits`, the number and the place of the first breach, or the refusal.
use crate::pieces::{DIGITS, TEXT, WORDS, before_slash, build};
use crate::show::{print, print_refusal};
use profile::{JudgeError, Verdict, judge_program};
use std::io;
use std::io::Write;

pub(crate) fn judge_case(to: &mut impl Write, times: Option<u32>, rest: &[u8]) -> io::Result<()> {
    before_slash::<WORDS, DIGITS, _, _>(rest, |words, line| judge_over(to, times, words, line))
}

// A table's judgement over the text of a line. The text is made when the table is: it takes the stack that making it took.
#[inline(never)]
fn judge_over(
    to: &mut impl Write,
    times: Option<u32>,
    words: &[u32],
    line: &[u8],
) -> io::Result<()> {
    let mut text = [0u8; TEXT];
    let n = build(line, &mut text);
    let text = &text[..n];
    let mut answer = judge_program(text, words);
    for _ in 1..times.unwrap_or(1) {
        answer = judge_program(text, words);
    }
    print_judged(to, answer)
}

fn print_judged(to: &mut impl Write, answer: Result<Verdict, JudgeError>) -> io::Result<()> {
    match answer {
        Ok(Verdict::Fits) => print(to, b" => fits"),
        Ok(Verdict::Breaks(breach)) => {
            write!(to, " => rule {} at {}", breach.rule.number(), breach.place)
        }
        Err(error) => print_refusal(to, error.number(), error.place()),
    }
}
