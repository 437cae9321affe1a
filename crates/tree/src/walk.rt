// The walk over a table's words: a frame and a stack of frames under it, whose kinds from the top down are expected, with the marks of the
// sequences of which items are passed.
ghost use Rattle.std.specs.Prelude.{ℕ, ◌<◌, ◌≤◌, length, map};
ghost use Rattle.tree.specs.Limits.{most_words};
ghost use Rattle.tree.specs.Kind.{name, natural};
ghost use Rattle.tree.specs.KindCodes.{as_kind};
ghost use Rattle.tree.specs.Rows.{OneWord, Stepped, Walked};

use crate::frames::{Frame, enter, more, note};
use crate::kind::Kind;
use crate::outline::note_kind;
use crate::rows::row_of;
use crate::stack::Stack;
use crate::{CheckError, get};

// The words of a table, over a text of that length.
#[derive(Clone, Copy)]
pub(crate) struct Table<'a> {
    pub(crate) words: &'a [u32],
    pub(crate) text_len: usize,
}

// A step over the words at a place, which fit the kind that is expected there: the place after them, and what is expected next.
#[derive(Clone, Copy)]
pub(crate) struct Step {
    next: usize,
    fields: &'static [Kind],
}

impl Table<'_> {
    // What the check finds where kinds are expected at the table's start; the sequences' numbers of items are noted, and the kinds where the
    // words are one tree.
    // Kept: `counts` and `kinds` apart, as in `count`.
    pub(crate) fn walk(
        &self,
        first: &'static [Kind],
        places: &mut [Frame],
        counts: &mut [u16],
        kinds: &mut [u16],
    ) -> Result<(), CheckError>
        requires { (length self.now.words.now < length places.old) × (length self.now.words.now ≤ most_words) }
        ensures { Walked self.now.words.now self.now.text_len (map as_kind first.now) result counts.old counts.new kinds.old kinds.new }
    {
        let mut stack = Stack::new(places);
        let mut top = Frame {
            kinds: first,
            mark: None,
        };
        let mut at = 0;
        loop {
            if let Some((kind, rest)) = top.split() {
                let step = self.next_step(at, kind)?;
                let mark = rest.mark_before(kind, at);
                note(counts, step.fields, mark);
                note_kind(kinds, at, step.next, kind);
                let fields = Frame {
                    kinds: step.fields,
                    mark: more(mark),
                };
                top = enter(&mut stack, fields, rest);
                at = step.next;
            } else if let Some(below) = stack.pop() {
                top = below;
            } else {
                break;
            }
        }
        if at < self.words.len() {
            Err(CheckError::Misfit(at))
        } else {
            Ok(())
        }
    }

    // The words at a place, where a kind is expected.
    fn next_step(&self, at: usize, kind: Kind) -> Result<Step, CheckError>
        requires { at ≤ length self.now.words.now }
        ensures { Stepped self.now.words.now self.now.text_len at (as_kind kind) result }
    {
        if self.words.len() <= at {
            return Err(CheckError::Misfit(self.words.len()));
        }
        match kind {
            Kind::Name => self.name_step(at),
            Kind::Natural => natural_step(self.words, at),
            _ => self.word_step(at, kind),
        }
    }

    // A name's two words.
    fn name_step(&self, at: usize) -> Result<Step, CheckError>
        requires { at < length self.now.words.now }
        ensures { Stepped self.now.words.now self.now.text_len at name result }
    {
        if self.words.len() - at < 2 {
            return Err(CheckError::Misfit(self.words.len()));
        }
        let second = at + 1;
        let start = get(self.words, at) as usize;
        let len = get(self.words, second) as usize;
        if self.text_len < start + len {
            return Err(CheckError::Misfit(at));
        }
        Ok(Step {
            next: at + 2,
            fields: &[],
        })
    }

    // One word that is not the first of two.
    fn word_step(&self, at: usize, kind: Kind) -> Result<Step, CheckError>
        requires { (at < length self.now.words.now) × OneWord (as_kind kind) }
        ensures { Stepped self.now.words.now self.now.text_len at (as_kind kind) result }
    {
        match row_of(kind, get(self.words, at)) {
            Some(fields) => Ok(Step {
                next: at + 1,
                fields,
            }),
            None => Err(CheckError::Misfit(at)),
        }
    }
}

// A natural's two words, over a text of any length.
fn natural_step(words: &[u32], at: usize) -> Result<Step, CheckError>
    requires { at < length words.now }
    ensures { (len : ℕ) → Stepped words.now len at natural result }
{
    if words.len() - at < 2 {
        return Err(CheckError::Misfit(words.len()));
    }
    Ok(Step {
        next: at + 2,
        fields: &[],
    })
}
