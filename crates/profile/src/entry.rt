// The judgement of a table: refusals 6 and 7 as for a print, and then the verdict on its program.
ghost use Rattle.std.specs.Prelude.{◌≡◌};
ghost use Rattle.profile.specs.Profile.{judge_program};
ghost use Rattle.profile.specs.Answers.{judgement_of};

use crate::answer::{JudgeError, Verdict};
use crate::outline::{Outline, blank};
use tree::{MOST_TEXT, outline_program};

// Judges the program that a table holds over a text.
pub fn judge_program(text: &[u8], words: &[u32]) -> Result<Verdict, JudgeError>
    ensures { judgement_of result ≡ judge_program text.now words.now }
{
    if MOST_TEXT < text.len() {
        return Err(JudgeError::Oversized);
    }
    let mut kinds = blank();
    let mut ends = blank();
    outline_program(words, text.len(), &mut kinds, &mut ends)?;
    let outline = Outline {
        text,
        words,
        kinds: &kinds,
        ends: &ends,
    };
    Ok(outline.judge())
}
