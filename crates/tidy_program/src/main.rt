// The tidy program (REFERENCE, "The entries"): standard input is read as a program and its print goes to standard output; or one line, the
// word refused, the number, the word at, the place. Of an input longer than 32,768 bytes one byte more is read, which refuses it.

#![tactic(auto)]

ghost use Rattle.std.specs.Prelude.{◌≤◌, length, IfOk};

use std::io;
use std::io::Read;
use tidy::{MOST_PRINT, MOST_TEXT, tidied};

// One byte more than is accepted.
// Kept: a limit, and no kind.
const MOST_READ: usize = MOST_TEXT + 1;

fn main(rt: HostRuntime) -> io::Result<()> {
    let mut input = [0; MOST_READ];
    let mut out = [0; MOST_PRINT];
    let n = read_full(&mut rt.reader(), &mut input)?;
    match tidied(&input[..n], &mut out) {
        Ok(n) => rt.write_all(&out[..n]),
        Err(refusal) => println!(rt; "{refusal}"),
    }
}

// Reads until the buffer is full or the input ends, and answers how many bytes stand at its start. No memory is allocated for it.
fn read_full(input: &mut impl Read, buffer: &mut [u8]) -> io::Result<usize>
    ensures { IfOk result (λ n. n ≤ length buffer.new) }
{
    let size = buffer.len();
    let mut rest = &mut buffer[..];
    let n = io::copy(&mut input.take(size as u64), &mut rest)?;
    Ok(size.min(n as usize))
}
