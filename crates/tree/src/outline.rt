// The outline of a table: the kinds, noted while its words are walked, and the ends, found from the last word back without a stack.
ghost use Rattle.std.specs.Prelude.{◌≡◌, ◌+◌, ◌<◌, ◌≤◌, length, get_or, set, take};
ghost use Rattle.tree.specs.Limits.{most_words};
ghost use Rattle.tree.specs.KindCodes.{kind_code};
ghost use Rattle.tree.specs.Outline.{filled};
ghost use Rattle.tree.specs.Notes.{note_kind, fields_end, end_at, end_notes};

use crate::kind::{Kind, SECOND_WORD};
use crate::rows::row_of;
use crate::{MOST_WORDS, get, item_or};

// A place for each word of a table. Callers know its length alone, so no proof computes the array.
pub(crate) fn blank() -> [u16; MOST_WORDS]
    ensures { most_words ≡ length result }
{
    [0; MOST_WORDS]
}

// Writes a number where there is a place for it.
pub(crate) fn put(notes: &mut [u16], at: usize, number: u16)
    ensures { notes.new ≡ set notes.old at number }
{
    // Kept: by get_mut the proof does not close where there is no place (returns-in_default), since nothing is said of the slice there.
    if at < notes.len() {
        notes[at] = number;
    }
}

// Notes the kind at a place, and a second word after it where the next place is two further on.
pub(crate) fn note_kind(kinds: &mut [u16], at: usize, next: usize, kind: Kind)
    requires { at < most_words }
    ensures { kinds.new ≡ note_kind at next (kind_code kind) kinds.old }
{
    put(kinds, at, u16::from(kind));
    let second = at + 1;
    if second < next {
        put(kinds, second, SECOND_WORD);
    }
}

// The place after the fields of a row that begin at a place.
fn after_fields(ends: &[u16], row: &[Kind], first: u16) -> u16
    ensures { result ≡ fields_end (length row.now) ends.now first }
{
    let mut next = first;
    for _ in row {
        next = item_or(ends, usize::from(next), 0);
    }
    next
}

// The place after what begins at a place, by the ends behind it.
fn end_of(words: &[u32], kinds: &[u16], ends: &[u16], at: usize) -> u16
    requires { at < most_words }
    ensures { result ≡ end_at words.now kinds.now at ends.now }
{
    let second = at + 1;
    let next = second as u16;
    // Kept: the kinds are read back from their numbers, which are the outline; kinds of their own would be a second array of 16,384.
    let Ok(kind) = Kind::try_from(item_or(kinds, at, 0)) else {
        return next;
    };
    match kind {
        Kind::Name | Kind::Natural => item_or(ends, second, 0),
        _ => match row_of(kind, get(words, at)) {
            Some(row) => after_fields(ends, row, next),
            None => next,
        },
    }
}

// The ends of all places, from the last to the first.
pub(crate) fn find_ends(words: &[u32], kinds: &[u16], ends: &mut [u16])
    requires { length words.now ≤ most_words }
    ensures { ends.new ≡ end_notes words.now kinds.now (length words.now) ends.old }
{
    for at in (0..words.len()).rev() {
        let end = end_of(words, kinds, ends, at);
        put(ends, at, end);
    }
}

// Copies numbers, as far as there is a place for them.
// Kept: one call of the library, whose contract is the outline's: what lies past them stays.
pub fn fill(from: &[u16], to: &mut [u16])
    ensures { to.new ≡ filled from.now to.old }
{
    let n = from.len().min(to.len());
    to[..n].copy_from_slice(&from[..n]);
}
