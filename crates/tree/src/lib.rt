// The tree words of B3 (REFERENCE, "The tree words"): the check that a table's words are one tree over a text, its outline, the small functions by
// which checked words are read, and the stack that walks have.

#![tactic(auto)]

mod frames;
pub mod kind;
mod outline;
mod rows;
pub mod stack;
mod walk;
pub mod word;

ghost use Rattle.std.specs.Prelude.{◌≡◌, ◌+◌, ◌*◌, ◌^◌, ◌<◌, ◌≤◌, get_or, length, map};
ghost use Rattle.tree.specs.Limits.{most_words};
ghost use Rattle.tree.specs.Resolve.{part};
ghost use Rattle.tree.specs.Check.{within, check as check_of, error_number, error_place, refusal, expression_refusal, program_refusal};
ghost use Rattle.tree.specs.KindCodes.{as_kind};
ghost use Rattle.tree.specs.Outline.{program_kinds, program_ends};
ghost use Rattle.tree.specs.Rows.{Walked};
ghost use Rattle.tree.specs.Notes.{kind_notes};
ghost use Rattle.tree.specs.Tally.{counts as counts_of, expression_counts, program_counts};

use frames::Frame;
use kind::Kind;
pub use outline::fill;
use outline::{blank, find_ends};
use walk::Table;

// The limits of a table's words and of a text's bytes.
pub const MOST_WORDS: usize = 16384;

pub const MOST_TEXT: usize = 32768;

// Why a table is refused.
#[derive(Clone, Copy, PartialEq, Eq, Debug)]
pub enum CheckError {
    // The words aren't one tree; the place is that of refusal 7.
    Misfit(usize),
    // There are more than `MOST_WORDS` words.
    TooManyWords,
}

// Kept: number and place by methods and no trait, see tidy's `TidyError`.
impl CheckError {
    // The number of a print's refusal: text, words or start indent are past their limits, or the words aren't one tree over the text.
    pub fn number(self) -> u64
        ensures { result ≡ error_number self }
    {
        match self {
            CheckError::Misfit(_) => 7,
            CheckError::TooManyWords => 6,
        }
    }

    // Its place.
    pub fn place(self) -> usize
        ensures { result ≡ error_place self }
    {
        match self {
            CheckError::Misfit(place) => place,
            CheckError::TooManyWords => 0,
        }
    }
}

// Kept: four entries, each one call, and the words beside the text's length: that is what callers have, and what each of them promises.

// Whether the words are one expression over a text of that length.
pub fn check_expression(words: &[u32], text_len: usize) -> Result<(), CheckError>
    ensures { refusal result ≡ expression_refusal words.now text_len }
{
    count_expression(words, text_len, &mut [])
}

// Whether the words are one program over a text of that length.
// Kept: an entry of its own, as above.
pub fn check_program(words: &[u32], text_len: usize) -> Result<(), CheckError>
    ensures { refusal result ≡ program_refusal words.now text_len }
{
    count_program(words, text_len, &mut [])
}

// The same; and at the place where a sequence of the expression starts, `counts` gets the number of its items.
// Kept: an entry of its own, as above.
pub fn count_expression(
    words: &[u32],
    text_len: usize,
    counts: &mut [u16],
) -> Result<(), CheckError>
    ensures { (refusal result ≡ expression_refusal words.now text_len) × (counts.new ≡ expression_counts words.now text_len counts.old) }
{
    count(&Table { words, text_len }, EXPRESSION, counts, &mut [])
}

// The same of a program.
// Kept: an entry of its own, as above.
pub fn count_program(words: &[u32], text_len: usize, counts: &mut [u16]) -> Result<(), CheckError>
    ensures { (refusal result ≡ program_refusal words.now text_len) × (counts.new ≡ program_counts words.now text_len counts.old) }
{
    count(&Table { words, text_len }, PROGRAM, counts, &mut [])
}

// Whether the words are one program over a text of that length; where they are, `kinds` gets for each word the number of the kind that is
// expected there (`kind`), and `ends` the place after what stands for it. What lies past the words stays, and of a refused table all.
// Kept: two outputs, each as long as its caller wants it.
pub fn outline_program(
    words: &[u32],
    text_len: usize,
    kinds: &mut [u16],
    ends: &mut [u16],
) -> Result<(), CheckError>
    ensures { (refusal result ≡ program_refusal words.now text_len) × (kinds.new ≡ program_kinds words.now text_len kinds.old) × (ends.new ≡ program_ends words.now text_len ends.old) }
{
    let mut noted = blank();
    count(&Table { words, text_len }, PROGRAM, &mut [], &mut noted)?;
    let mut found = blank();
    find_ends(words, &noted, &mut found);
    fill(&noted[..words.len()], kinds);
    fill(&found[..words.len()], ends);
    Ok(())
}

// What is expected of an expression, and of a program: its five sequences.
const EXPRESSION: &'static [Kind] = &[Kind::Expr];

const PROGRAM: &'static [Kind] = &[
    Kind::Names,
    Kind::Taggers,
    Kind::Functions,
    Kind::Axioms,
    Kind::Procedures,
];

// What the check finds where kinds are expected, with what is noted of it. A table of fewer words takes a smaller stack.
// Kept: `counts` and `kinds` apart, here and below: one is an entry's output or empty, the other the outline's or empty.
fn count(
    table: &Table,
    first: &'static [Kind],
    counts: &mut [u16],
    kinds: &mut [u16],
) -> Result<(), CheckError>
    ensures { (result ≡ check_of (map as_kind first.now) table.now.words.now table.now.text_len) × (counts.new ≡ counts_of (map as_kind first.now) table.now.words.now table.now.text_len counts.old) × (result ≡ Ok tt → kinds.new ≡ kind_notes (within table.now.text_len) (map as_kind first.now) 0 table.now.words.now kinds.old) }
{
    let size = table.words.len();
    if size < SMALL {
        walk_small(table, first, counts, kinds)
    } else if size < MEDIUM {
        walk_medium(table, first, counts, kinds)
    } else if size <= MOST_WORDS {
        walk_large(table, first, counts, kinds)
    } else {
        Err(CheckError::TooManyWords)
    }
}

// The places of the stacks. Each stack is a function's own, so that a small table doesn't take a large one.
const SMALL: usize = 256;

const MEDIUM: usize = 4096;

// Kept: three functions. One with the size as a const parameter was tried: its array, whose frames hold slices, is none that the borrow checker
// covers, and with frames without slices the check takes half as many instructions more.
#[inline(never)]
fn walk_small(
    table: &Table,
    first: &'static [Kind],
    counts: &mut [u16],
    kinds: &mut [u16],
) -> Result<(), CheckError>
    requires { length table.now.words.now < 256 }
    ensures { Walked table.now.words.now table.now.text_len (map as_kind first.now) result counts.old counts.new kinds.old kinds.new }
{
    let mut places = [Frame::EMPTY; SMALL];
    table.walk(first, &mut places, counts, kinds)
}

// Kept: see `walk_small`.
#[inline(never)]
fn walk_medium(
    table: &Table,
    first: &'static [Kind],
    counts: &mut [u16],
    kinds: &mut [u16],
) -> Result<(), CheckError>
    requires { length table.now.words.now < 4096 }
    ensures { Walked table.now.words.now table.now.text_len (map as_kind first.now) result counts.old counts.new kinds.old kinds.new }
{
    let mut places = [Frame::EMPTY; MEDIUM];
    table.walk(first, &mut places, counts, kinds)
}

// Kept: see `walk_small`.
#[inline(never)]
fn walk_large(
    table: &Table,
    first: &'static [Kind],
    counts: &mut [u16],
    kinds: &mut [u16],
) -> Result<(), CheckError>
    requires { length table.now.words.now ≤ most_words }
    ensures { Walked table.now.words.now table.now.text_len (map as_kind first.now) result counts.old counts.new kinds.old kinds.new }
{
    let mut places = [Frame::EMPTY; MOST_WORDS + 1];
    table.walk(first, &mut places, counts, kinds)
}

// The word at a place; 0 past the end.
// Kept: `item_or` of words with 0, by the name that it had; callers state it by `get_or`.
pub fn get(words: &[u32], at: usize) -> u32
    ensures { result ≡ get_or words.now at 0 }
{
    item_or(words, at, 0)
}

// The item at a place; the other one past the end.
pub fn item_or<T: Copy>(items: &[T], at: usize, other: T) -> T
    ensures { result ≡ get_or items.now at other }
{
    items.get(at).copied().unwrap_or(other)
}

// The natural whose high word stands at a place; a word past the end is 0.
pub fn natural(words: &[u32], at: usize) -> u64
    ensures { result ≡ get_or words.now at 0 * 2 ^ 32 + get_or words.now (at + 1) 0 }
{
    let high = u64::from(get(words, at));
    let low = u64::from(get(words, at.saturating_add(1)));
    high << 32 | low
}

// The part of the text that a name occupies. A name that lies inside the text is `&text[start..start + len]`; of another, what of it
// is in the text.
pub fn name(text: &[u8], start: u32, len: u32) -> &[u8]
    ensures { result.now ≡ part text.now start len }
{
    let start = text.len().min(start as usize);
    let end = text.len().min(start + len as usize);
    &text[start..end]
}
