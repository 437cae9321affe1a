// Prints by the bytes of settings: their refusals come before those of the print.
ghost use Rattle.rendering.specs.Render.{rooted};
ghost use Rattle.printing.specs.BySettings.{AnsweredBy, PrintAnsweredBy, ProgramAnsweredBy};

use crate::entry::print;
use crate::error::PrintByError;
use rendering::Root;
use settings::settings_in;

// Prints the expression that a table holds over a text by settings, from a start indent on.
pub fn print_expression_by(
    settings: &[u8],
    text: &[u8],
    words: &[u32],
    indent: usize,
    out: &mut [u8],
) -> Result<usize, PrintByError>
    ensures { PrintAnsweredBy settings.now text.now words.now indent out.old result out.new }
{
    print_by(settings, text, words, Root::AnExpression(indent), out)
}

// Prints the program that a table holds over a text by settings.
// Kept: as `print_expression` of `entry`, each entry is one call.
pub fn print_program_by(
    settings: &[u8],
    text: &[u8],
    words: &[u32],
    out: &mut [u8],
) -> Result<usize, PrintByError>
    ensures { ProgramAnsweredBy settings.now text.now words.now out.old result out.new }
{
    print_by(settings, text, words, Root::AProgram, out)
}

// Kept: as `print`, with the bytes of the settings.
fn print_by(
    settings: &[u8],
    text: &[u8],
    words: &[u32],
    root: Root,
    out: &mut [u8],
) -> Result<usize, PrintByError>
    ensures { AnsweredBy (λ s. rooted s text.now root) settings.now text.now words.now out.old result out.new }
{
    let settings = settings_in(settings)?;
    Ok(print(text, words, root, settings, out)?)
}
