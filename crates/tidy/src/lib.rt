// Tidy (REFERENCE, "The entries"): a program is read and printed in one call.

#![tactic(auto)]

mod error;

ghost use Rattle.std.specs.Prelude.{◌≤◌, ◌≡◌, length};
ghost use Rattle.tree.specs.Limits.{most_text, most_words};
ghost use Rattle.tidy.specs.Tidy.{Tidied, refusal_number};
ghost use Rattle.tidy.specs.Answers.{Tidies, TidiesIn};
ghost use Rattle.tidy.specs.Errors.{error_number, error_place};

pub use error::TidyError;
pub use printing::MOST_PRINT;
use printing::print_program;
use reading::read_program;
pub use tree::MOST_TEXT;
use tree::MOST_WORDS;

// For a text of at most 512 bytes: five words, and five for each byte.
const FEW_WORDS: usize = 2565;

// Reads the program `text` and prints it to `out`. Answers how many bytes were written, or a refusal's number times 2^32 plus its place.
// Kept: one number is the answer that C takes; `tidied` is the form for callers here.
pub fn tidy(text: &[u8], out: &mut [u8]) -> u64
    ensures { Tidied text.now out.old result out.new }
{
    match tidied(text, out) {
        Ok(n) => n as u64,
        Err(error) => packed(error),
    }
}

// The same, with a refusal as an error.
pub fn tidied(text: &[u8], out: &mut [u8]) -> Result<usize, TidyError>
    ensures { Tidies text.now out.old result out.new }
{
    if text.len() <= 512 {
        tidied_in::<FEW_WORDS>(text, out)
    } else {
        tidied_in::<MOST_WORDS>(text, out)
    }
}

// By way of a table of so many words. One of few clears fast, and has room for the tree of a short text.
fn tidied_in<const WORDS: usize>(text: &[u8], out: &mut [u8]) -> Result<usize, TidyError>
    requires { WORDS ≤ most_words }
    ensures { TidiesIn text.now WORDS out.old result out.new }
{
    let mut table = [0u32; WORDS];
    let n = read_program(text, &mut table)?;
    Ok(print_program(text, &table[..n], out)?)
}

// A refusal as one number.
// Kept: as `tidy`, for C.
fn packed(error: TidyError) -> u64
    requires { error_place error ≤ most_text }
    ensures { result ≡ refusal_number (error_number error) (error_place error) }
{
    error.number() * 4294967296 + error.place() as u64
}
