// Read expression and read program.
ghost use Rattle.std.specs.Prelude.{ℕ, ◌≡◌, ◌≤◌, List, [], length, replicate, Err};
ghost use Rattle.grammar.specs.Reading.{stored, told};
ghost use Rattle.parsing.specs.Arena.{Run, Holds, most_arena};
ghost use Rattle.reading.specs.Entry.{Sized, whole_outcome, read_outcome};
ghost use Rattle.reading.specs.Flat.{Rooted};
ghost use Rattle.reading.specs.TreeRead.{outcome_of, Answered, ProgramAnswered};

use crate::flat::{Frame, flatten};
use lexing::refusal::{Reason, Refusal};
use parsing::{Node, Whole, parse};
use tree::{MOST_TEXT, MOST_WORDS};

// All words become 0.
// Kept: it is one call of the library, whose contract gives both callers what they need in the words of the specs.
fn clear(table: &mut [u32])
    ensures { table.new ≡ replicate (length table.old) 0 }
{
    table.fill(0);
}

// The tree's words in the table, or refusal 5, by way of a stack of so many places. It is made here, where that of the rules' calls is free again.
#[inline(never)]
fn store_by<const PLACES: usize>(
    arena: &[Node],
    root: u32,
    table: &mut [u32],
) -> Result<usize, Refusal>
    requires rooted { Rooted arena.now PLACES root }
    requires clear { table.old ≡ replicate (length table.old) 0 }
    requires small { PLACES ≤ most_arena }
    ensures { (f : Run) → Holds arena.now root f → outcome_of result table.new ≡ stored (length table.old) (f []) }
{
    let mut places = [Frame::Whole(0); PLACES];
    match flatten(arena, root, &mut places, table) {
        Ok(n) if n <= MOST_WORDS => Ok(n),
        _ => {
            clear(table);
            Err(Refusal::new(Reason::TreeTooLarge, 0))
        }
    }
}

// The same. A stack has a place for each node to the root, which is the last of the tree: a tree of few nodes takes a small one.
fn store<const SIZE: usize>(arena: &[Node], root: u32, table: &mut [u32]) -> Result<usize, Refusal>
    requires rooted { Rooted arena.now SIZE root }
    requires clear { table.old ≡ replicate (length table.old) 0 }
    requires small { SIZE ≤ most_arena }
    ensures { (f : Run) → Holds arena.now root f → outcome_of result table.new ≡ stored (length table.old) (f []) }
{
    if root < 1035 {
        return store_by::<1035>(arena, root, table);
    }
    if root < 8203 {
        return store_by::<8203>(arena, root, table);
    }
    store_by::<SIZE>(arena, root, table)
}

// A refusal of the rules, as it is told: a token that can't be used, at the text's end, is that the text ended too soon.
fn told(text: &[u8], refusal: Refusal) -> Refusal
    ensures { (table : List ℕ) → outcome_of (Err result) table ≡ told text.now (outcome_of (Err refusal) table) }
{
    match refusal.reason {
        Reason::UnusableToken if refusal.place == text.len() => {
            Refusal::new(Reason::EndedTooSoon, refusal.place)
        }
        _ => refusal,
    }
}

// Reads a text by way of an arena and a stack of so many places: eleven, and two for each byte.
fn read_sized<const SIZE: usize>(
    text: &[u8],
    table: &mut [u32],
    whole: Whole,
) -> Result<usize, Refusal>
    requires { Sized text.now SIZE table.old }
    ensures { outcome_of result table.new ≡ told text.now (whole_outcome whole (length table.old) text.now) }
{
    let mut arena = [Node::Three(0, 0, 0); SIZE];
    match parse(text, &mut arena, whole) {
        Ok(root) => store::<SIZE>(&arena, root, table),
        Err(refusal) => Err(told(text, refusal)),
    }
}

// Reads a text with buffers by its length.
fn read(text: &[u8], table: &mut [u32], whole: Whole) -> Result<usize, Refusal>
    ensures { outcome_of result table.new ≡ read_outcome whole text.now (length table.old) }
{
    clear(table);
    if MOST_TEXT < text.len() {
        return Err(Refusal::new(Reason::TextTooLong, MOST_TEXT));
    }
    if text.len() <= 512 {
        return read_sized::<1035>(text, table, whole);
    }
    if text.len() <= 4096 {
        return read_sized::<8203>(text, table, whole);
    }
    if text.len() <= 12288 {
        return read_sized::<24587>(text, table, whole);
    }
    read_sized::<65547>(text, table, whole)
}

// Kept: the two entries are each one call of `read`, with the kind of tree that their name says.

// Reads an expression: the words of its tree in the table, with zeros after them, and how many they are. A refusal leaves the table all zero.
pub fn read_expression(text: &[u8], table: &mut [u32]) -> Result<usize, Refusal>
    ensures { Answered text.now (length table.old) result table.new }
{
    read(text, table, Whole::Expression)
}

// Reads a program, in the same way.
// Kept: as `read_expression`.
pub fn read_program(text: &[u8], table: &mut [u32]) -> Result<usize, Refusal>
    ensures { ProgramAnswered text.now (length table.old) result table.new }
{
    read(text, table, Whole::Program)
}
