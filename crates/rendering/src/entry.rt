// The print of the tree that a table holds, in a buffer: refusals 6 to 8 (REFERENCE, "The refusals"), once for whatever tree.
ghost use Rattle.std.specs.Prelude.{◌≤◌, ◌≡◌, length};
ghost use Rattle.tree.specs.Limits.{most_text, most_words};
ghost use Rattle.tree.specs.Check.{refusal};
ghost use Rattle.rendering.specs.Tables.{most_indent};
ghost use Rattle.rendering.specs.Parts.{Prints};
ghost use Rattle.rendering.specs.ExprParts.{widest_step};
ghost use Rattle.rendering.specs.Render.{root_kind, root_indent, rooted, root_counts, root_part, settings_in, Numbered, Renders, Makes};

use crate::printer::{Printer, Source};
use crate::setting::Setting;
use crate::{PrintError, Root};
use layout::Settings;
use tree::{CheckError, MOST_TEXT, MOST_WORDS, count_expression, count_program};

const MOST_INDENT: usize = 255;

// A table of so many words takes a small table of numbers.
const SMALL_TABLE: usize = 256;

// Prints the tree that a table holds over a text by settings, at a buffer's start. The buffer's bytes that no print occupies are free afterwards, after a
// refusal all of them.
// Kept: the text and the words are what callers have; a `Source` is made where the check has filled the numbers.
pub fn render(
    text: &[u8],
    words: &[u32],
    root: Root,
    settings: Settings,
    buffer: &mut [u8],
) -> Result<usize, PrintError>
    ensures { Renders (rooted settings text.now root) text.now words.now buffer.old result buffer.new }
{
    if MOST_TEXT < text.len() {
        return Err(PrintError::Oversized);
    }
    if MOST_INDENT < root.start_indent() {
        return Err(PrintError::Oversized);
    }
    if words.len() <= SMALL_TABLE {
        return render_in::<SMALL_TABLE>(text, words, root, settings, buffer);
    }
    render_in::<MOST_WORDS>(text, words, root, settings, buffer)
}

// The check, which counts the items of the sequences of a table of at most SIZE words, and then the print.
// Kept: as `render`, before there is a `Source`.
fn render_in<const SIZE: usize>(
    text: &[u8],
    words: &[u32],
    root: Root,
    settings: Settings,
    buffer: &mut [u8],
) -> Result<usize, PrintError>
    requires text { length text.now ≤ most_text }
    requires indent { root_indent root ≤ most_indent }
    requires words { length words.now ≤ most_words → length words.now ≤ SIZE }
    requires size { SIZE ≤ most_words }
    ensures { Renders (rooted settings text.now root) text.now words.now buffer.old result buffer.new }
{
    let mut counts = [0; SIZE];
    root.count(text, words, &mut counts)?;
    let source = Source {
        text,
        words,
        counts: &counts,
        step: usize::from(settings.step),
        form: settings.form,
    };
    render_by(source, root, buffer)
}

// The print of a checked table's tree, by the numbers of items.
fn render_by(source: Source, root: Root, buffer: &mut [u8]) -> Result<usize, PrintError>
    requires { (source.step ≤ widest_step) × (root_indent root ≤ most_indent) × Numbered source.text.now source.words.now source.counts.now root }
    ensures { Makes (rooted (settings_in source.entry) source.entry.text.now root) source.entry.words.now buffer.old result buffer.new }
{
    let room = buffer.len();
    let mut printer = Printer {
        source,
        at: 0,
        out: buffer,
        pos: 0,
    };
    root.print(&mut printer);
    if room < printer.pos {
        return Err(PrintError::TooLong);
    }
    Ok(printer.pos)
}

// What is done by the root.
impl Root {
    // The start indent of its print.
    fn start_indent(self) -> usize
        ensures { result ≡ root_indent self }
    {
        match self {
            Root::AnExpression(indent) => indent,
            Root::AProgram => 0,
        }
    }

    // The check of a table, with the numbers of its sequences' items.
    // Kept: as `render`, before there is a `Source`.
    fn count(self, text: &[u8], words: &[u32], counts: &mut [u16]) -> Result<(), CheckError>
        ensures { (refusal result ≡ (root_kind text.now self).refused words.now) × (counts.new ≡ root_counts self words.now (length text.now) counts.old) }
    {
        match self {
            Root::AnExpression(_) => count_expression(words, text.len(), counts),
            Root::AProgram => count_program(words, text.len(), counts),
        }
    }

    // The print of a table's tree.
    fn print(self, printer: &mut Printer)
        ensures { Prints (root_part self) printer.old printer.new }
    {
        match self {
            Root::AnExpression(indent) => {
                printer.expr(Setting::outermost(printer.source.form.at(indent)))
            }
            Root::AProgram => printer.program(),
        }
    }
}
