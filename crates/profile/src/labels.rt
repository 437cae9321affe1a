// The labels of a table: their numbers, and the places up to which statements of them go on.
ghost use Rattle.std.specs.Prelude.{ℕ, ◌≡◌, ◌+◌, ◌<◌, length, get_or};
ghost use Rattle.tree.specs.Limits.{most_words};
ghost use Rattle.profile.specs.Profile.{lacks_label};
ghost use Rattle.profile.specs.Labels.{places_of, Spanned, Numbered, Open};

use crate::outline::Outline;
use names::number_spans;
use tree::word::StmtTag;
use tree::{MOST_WORDS, get, item_or};

impl<'a> Outline<'a> {
    // The span of the label at a place, where there is one.
    fn note_span(&self, at: usize, spans: &mut [u32])
        requires { (at < length self.now.words.now) × Spanned (places_of self.now) at spans.old }
        ensures { Spanned (places_of self.now) (at + 1) spans.new }
    {
        if let Some(name) = self.label(at) {
            spans[2 * at] = get(self.words, name);
            spans[2 * at + 1] = get(self.words, name + 1);
        }
    }

    // Gives each place with a label the number of the label's bytes, where an exit has a label.
    pub(crate) fn number_labels(&self, numbers: &mut [u16])
        requires room { length numbers.old ≡ most_words }
        requires zero { (i : ℕ) → get_or numbers.old i 0 ≡ 0 }
        ensures { Numbered (places_of self.now) self.now.text.now (length self.now.words.now) numbers.new }
    {
        let count = self.words.len();
        let mut spans = [0u32; 2 * MOST_WORDS];
        let mut asked = false;
        for at in 0..count {
            self.note_span(at, &mut spans);
            asked |= self.is_exit(at);
        }
        if asked {
            let _ = number_spans(self.text, &spans[..2 * count], numbers);
        }
    }

    // Rule 4 is broken at a place: no statement of the exit's label goes on there.
    pub(crate) fn lacks_label(&self, at: usize, numbers: &[u16], until: &[u16]) -> bool
        requires at { at < length self.now.words.now }
        requires numbered { Numbered (places_of self.now) self.now.text.now (length self.now.words.now) numbers.now }
        requires open { Open (places_of self.now) self.now.text.now (length self.now.words.now) numbers.now at until.now }
        ensures { result ≡ lacks_label (places_of self.now) self.now.text.now at }
    {
        self.is_exit(at) && usize::from(until[usize::from(numbers[at])]) <= at
    }

    // A statement with a label goes on up to its end.
    pub(crate) fn open(&self, at: usize, numbers: &[u16], until: &mut [u16])
        requires at { at < length self.now.words.now }
        requires numbered { Numbered (places_of self.now) self.now.text.now (length self.now.words.now) numbers.now }
        requires open { Open (places_of self.now) self.now.text.now (length self.now.words.now) numbers.now at until.old }
        ensures { Open (places_of self.now) self.now.text.now (length self.now.words.now) numbers.now (at + 1) until.new }
    {
        if self.is_statement(StmtTag::LabeledStmt, at) {
            let number = usize::from(numbers[at]);
            until[number] = until[number].max(item_or(self.ends, at, 0));
        }
    }
}
