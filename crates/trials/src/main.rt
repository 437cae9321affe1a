// The executed trials. Each line of standard input is a case, and is printed with its answer after it. Its first byte chooses what is tried; a
// space and the arguments follow, with a space between them:
//   b i l n TEXT                     `lexing`: blanks, an identifier, a custom literal's text, a natural
//   k WORD TEXT                      a keyword
//   s SIGN TEXT                      a sign
//   u SIGN LONGER TEXT               a sign unless the longer one stands there
//   c C LENGTH TABLE                 `tree`: the check of an expression's and of a program's table, over a text of so many bytes
//   o KINDS ENDS LENGTH TABLE        the outline of a program's table, into so many kinds, each 255 before, and so many ends, each 65535 before,
//                                    over a text of so many bytes
//   w v PLACE TABLE                  the word and the natural at a place
//   x START LENGTH TEXT              the part of the text that a name occupies
//   a NUMBERS SPANS/TEXT             `names`: the numbers of spans, into so many numbers, each 65535 before
//   r R WORDS TEXT                   `reading`: an expression's and a program's reading, into a table of so many words
//   j TABLE/TEXT                     `profile`: the judgement of a program's table
//   q HEX                            `settings`: reading, answered by the step and the form, or by the refusal and the step and the form after it
//   Q STEP FORM BYTES                writing, into so many bytes
//   p BYTES TABLE/TEXT               `printing`: an expression's print on one line, into so many bytes
//   m INDENT BYTES TABLE/TEXT        its print on several lines, from a start indent on
//   P BYTES TABLE/TEXT               a program's print
//   e HEX INDENT BYTES TABLE/TEXT    an expression's print by settings, from a start indent on
//   d HEX BYTES TABLE/TEXT           a program's print by settings
// A TABLE and SPANS are given by pieces, from `a` on a TEXT too (`pieces`); before, it is the rest of the line, in the cases of `lexing` with the
// escapes of `lines`. HEX is the bytes of settings (`hex`), 64 at most. A number past 32 bits is taken for the greatest of 32. A line that begins
// otherwise has no answer. A print of more than 4,096 bytes is answered by its length and CRC-32, more numbers than 256 by how many they are and
// the CRC-32 of two bytes each, the high one first.
//
// A number at once after `o`, `a`, `j`, `r`, `R`, `Q` or a print's letter says how often the entry is run, for measuring; the answer is then
// only how much the last run gave: of an outline the table's words, of spans the distinct names, of a judgement all.

#![tactic(auto)]

mod entries;
mod hex;
mod judgements;
mod lines;
mod numbers;
mod outlines;
mod pieces;
mod records;
mod show;
mod slices;
mod spans;
mod tables;
mod tokens;

use entries::{print_case, read_case};
use hex::with_hex;
use judgements::judge_case;
use lexing::{keyword, natural, parse_custom_literal, parse_id, sym, sym_not_prefix};
use lines::tail;
use numbers::number;
use outlines::outline_case;
use printing::{
    print_expression, print_expression_by, print_expression_lines, print_program, print_program_by,
};
use reading::{read_expression, read_program};
use records::{record_case, settings_case};
use show::print;
use spans::names_case;
use std::io;
use std::io::{BufWriter, Read, Write};
use tables::{check_case, name_case, number_case};
use tokens::{blanks_case, split, token_case};
use tree::{check_expression, check_program};

// More bytes than the cases have; of a longer input so many are read.
// Kept: a limit, and no kind.
const MOST_INPUT: u64 = 4_194_304;

fn main(rt: HostRuntime) -> io::Result<()> {
    let mut input = Vec::new(rt.alloc());
    rt.reader().take(MOST_INPUT).read_to_end(&mut input)?;
    let mut to = BufWriter::new(rt.alloc(), io::writer(&rt))?;
    cases(&mut to, &input)?;
    to.flush()
}

fn cases(to: &mut impl Write, input: &[u8]) -> io::Result<()> {
    for line in input.split_inclusive(|b| *b == b'\n') {
        case(to, line.strip_suffix(b"\n").unwrap_or(line))?;
    }
    Ok(())
}

// One line: printed as it stands, and its answer after it.
fn case(to: &mut impl Write, line: &[u8]) -> io::Result<()> {
    print(to, line)?;
    if let [entry, rest @ ..] = line {
        answer(to, *entry, rest)?;
    }
    print(to, b"\n")
}

// What an entry gives for the rest of a line.
fn answer(to: &mut impl Write, entry: u8, line: &[u8]) -> io::Result<()> {
    let count = number(line);
    let times = (0 < count.value).then_some(count.value);
    let rest = tail(line, count.digits);
    match entry {
        b'b' => blanks_case(to, rest),
        b'i' => token_case(to, rest, |s| parse_id(s)),
        b'l' => token_case(to, rest, |s| parse_custom_literal(s)),
        b'n' => token_case(to, rest, |s| natural(s)),
        b'k' => token_case(to, rest, |s| split(s, |word, text| keyword(text, word))),
        b's' => token_case(to, rest, |s| split(s, |sign, text| sym(text, sign))),
        b'u' => token_case(to, rest, |s| {
            split(s, |sign, after| {
                split(after, |longer, text| sym_not_prefix(text, sign, longer))
            })
        }),
        b'c' => check_case(to, rest, |words, len| check_expression(words, len)),
        b'C' => check_case(to, rest, |words, len| check_program(words, len)),
        b'o' => outline_case(to, times, rest),
        b'w' => number_case(to, rest, |words, at| u64::from(tree::get(words, at))),
        b'v' => number_case(to, rest, |words, at| tree::natural(words, at)),
        b'x' => name_case(to, rest),
        b'a' => names_case(to, times, rest),
        b'r' => read_case(to, times, rest, |text, table| read_expression(text, table)),
        b'R' => read_case(to, times, rest, |text, table| read_program(text, table)),
        b'j' => judge_case(to, times, rest),
        b'q' => settings_case(to, rest),
        b'Q' => record_case(to, times, rest),
        b'p' => print_case(to, times, rest, |s, out| {
            Ok(print_expression(s.text, s.words, out)?)
        }),
        b'm' => {
            let indent = number(rest);
            print_case(to, times, tail(rest, indent.digits), |s, out| {
                Ok(print_expression_lines(s.text, s.words, indent.value as usize, out)?)
            })
        }
        b'P' => print_case(to, times, rest, |s, out| {
            Ok(print_program(s.text, s.words, out)?)
        }),
        b'e' => with_hex(rest, |settings, rest| {
            let indent = number(rest);
            print_case(to, times, tail(rest, indent.digits), |s, out| {
                print_expression_by(settings, s.text, s.words, indent.value as usize, out)
            })
        }),
        b'd' => with_hex(rest, |settings, rest| {
            print_case(to, times, rest, |s, out| {
                print_program_by(settings, s.text, s.words, out)
            })
        }),
        _ => Ok(()),
    }
}
