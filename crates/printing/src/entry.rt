// Print expression and print program (REFERENCE, "The entries"): the print before the output's old bytes, once for whatever tree a table holds.
ghost use Rattle.std.specs.Prelude.{◌≤◌, min, ◌≡◌, length};
ghost use Rattle.layout.specs.Settings.{defaults, one_line};
ghost use Rattle.rendering.specs.Render.{rooted};
ghost use Rattle.printing.specs.Entries.{most_print, outcome_of, Answered, PrintAnswered, ProgramAnswered};
ghost use Rattle.printing.specs.Delivery.{delivered};

use layout::Settings;
use rendering::{PrintError, Root, render};

// The most bytes of a print.
pub const MOST_PRINT: usize = 65536;

// Kept: the three entries are each one call of `print`, with the root that their name says.

// Prints the expression that a table holds over a text on one line.
pub fn print_expression(text: &[u8], words: &[u32], out: &mut [u8]) -> Result<usize, PrintError>
    ensures { PrintAnswered one_line text.now words.now 0 out.old result out.new }
{
    print(text, words, Root::AnExpression(0), Settings::ONE_LINE, out)
}

// The same on several lines, from a start indent on.
// Kept: as `print_expression`.
pub fn print_expression_lines(
    text: &[u8],
    words: &[u32],
    indent: usize,
    out: &mut [u8],
) -> Result<usize, PrintError>
    ensures { PrintAnswered defaults text.now words.now indent out.old result out.new }
{
    print(
        text,
        words,
        Root::AnExpression(indent),
        Settings::DEFAULT,
        out,
    )
}

// Prints the program that a table holds over a text.
// Kept: as `print_expression`.
pub fn print_program(text: &[u8], words: &[u32], out: &mut [u8]) -> Result<usize, PrintError>
    ensures { ProgramAnswered defaults text.now words.now out.old result out.new }
{
    print(text, words, Root::AProgram, Settings::DEFAULT, out)
}

// A small output takes a small buffer.
// Kept: a struct of the text and the words would be made in each entry and taken apart again in the call of `render`.
pub(crate) fn print(
    text: &[u8],
    words: &[u32],
    root: Root,
    settings: Settings,
    out: &mut [u8],
) -> Result<usize, PrintError>
    ensures { Answered (rooted settings text.now root) text.now words.now out.old result out.new }
{
    if out.len() <= 1024 {
        return print_through::<1024>(text, words, root, settings, out);
    }
    print_through::<MOST_PRINT>(text, words, root, settings, out)
}

// The print through a buffer of so many bytes, so that one that does not fit leaves the output as it was.
// Kept: as `print`, the text and the words go on to `render`.
fn print_through<const SIZE: usize>(
    text: &[u8],
    words: &[u32],
    root: Root,
    settings: Settings,
    out: &mut [u8],
) -> Result<usize, PrintError>
    requires { (SIZE ≤ most_print) × (min (length out.old) most_print ≤ SIZE) }
    ensures { Answered (rooted settings text.now root) text.now words.now out.old result out.new }
{
    let mut buffer = [0u8; SIZE];
    let n = render(text, words, root, settings, &mut buffer)?;
    deliver(&buffer[..n], out)
}

// Copies a print to the front of the output; refusal 8 where that is shorter. Not inlined, as rendering's `put_any`.
#[inline(never)]
fn deliver(print: &[u8], out: &mut [u8]) -> Result<usize, PrintError>
    ensures { outcome_of result out.new ≡ delivered print.now out.old }
{
    let n = print.len();
    if out.len() < n {
        return Err(PrintError::TooLong);
    }
    out[..n].copy_from_slice(print);
    Ok(n)
}
