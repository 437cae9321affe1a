// Blanks: spaces, comments to the line's end and nested long comments.
ghost use Rattle.std.specs.Prelude.{◌≡◌, ◌+◌, ◌-◌, ◌≤◌, ◌<◌, ◌^◌, length, take, drop};
ghost use Rattle.lexing.specs.Blanks.{mark, long_comment, blank, W};
ghost use Rattle.lexing.specs.CodeAnswers.{reach_of, mark_of, end_of, PositionIf};

use crate::bytes::{is_space, not_newline, run_length};

// A long comment that opens at this place is not closed.
#[derive(Clone, Copy, PartialEq, Eq, Debug)]
pub struct Unclosed {
    pub at: usize,
}

impl Unclosed {
    // The same comment in a text that has `by` more bytes before it.
    pub(crate) fn moved(self, by: usize) -> Unclosed
        requires { by + self.at < 2 ^ 64 }
        ensures { result ≡ record { at = by + self.at } }
    {
        Unclosed { at: by + self.at }
    }
}

// The marks of a long comment.
#[derive(Clone, Copy, PartialEq, Eq, Debug)]
pub(crate) enum Mark {
    Closing,
    Opening,
}

#[tactic(auto, unfolding(crate::specs::Blanks::mark))]
pub(crate) fn mark_at(a: u8, b: u8) -> Option<Mark>
    ensures { mark_of result ≡ mark a b }
{
    match (a, b) {
        (b'*', b'/') => Some(Mark::Closing),
        (b'/', b'*') => Some(Mark::Opening),
        _ => None,
    }
}

// How many bytes a long comment takes, whose opening mark stands before `s`.
pub(crate) fn long_comment(s: &[u8]) -> Option<usize>
    ensures { end_of result ≡ long_comment 0 s.now }
{
    let mut depth: usize = 0;
    // The byte before, 0 where a mark ends there.
    // Kept: 0 for no byte, which no mark has; an `Option<u8>` would be made and taken apart at each byte.
    let mut before = 0;
    for (i, b) in s.iter().enumerate() {
        match mark_at(before, *b) {
            Some(Mark::Closing) => {
                if depth == 0 {
                    return Some(i + 1);
                }
                depth -= 1;
                before = 0;
            }
            Some(Mark::Opening) => {
                depth += 1;
                before = 0;
            }
            None => before = *b,
        }
    }
    None
}

// Upstream's function of this name: the place after the long comment that is open at `start`, at most `end`, or none where it is not closed before
// `end`.
// Kept: `start` and `end` are upstream's parameters, and `Position` is stated with them.
pub(crate) fn position_after_end_of_long_comment(
    input: &[u8],
    start: usize,
    end: usize,
) -> Option<usize>
    requires { (start ≤ end) × (end ≤ length input.now) }
    ensures { PositionIf (take (end - start) (drop start input.now)) start end result }
{
    let n = long_comment(&input[start..end])?;
    Some(start + n)
}

// The one blank at the start, 0 bytes where there is none.
pub(crate) fn blank_at_start(s: &[u8]) -> Result<usize, Unclosed>
    ensures { reach_of result ≡ blank s.now }
{
    let [first, rest @ ..] = s else {
        return Ok(0);
    };
    if is_space(*first) {
        return Ok(1);
    }
    if *first != b'/' {
        return Ok(0);
    }
    let [second, ..] = rest else {
        return Ok(0);
    };
    match *second {
        b'/' => Ok(1 + run_length(rest, not_newline)),
        b'*' => position_after_end_of_long_comment(s, 2, s.len()).ok_or(Unclosed { at: 0 }),
        _ => Ok(0),
    }
}

// `W`: all blanks at the start. Called, and not inlined, at the end of each token.
#[inline(never)]
pub fn blanks(s: &[u8]) -> Result<usize, Unclosed>
    ensures { reach_of result ≡ W s.now }
{
    // Kept: a turn passes a whole blank, so the place moves by what it takes and not by one.
    let mut at: usize = 0;
    loop {
        match blank_at_start(&s[at..]) {
            Ok(0) => return Ok(at),
            Ok(n) => at += n,
            Err(open) => return Err(open.moved(at)),
        }
    }
}
