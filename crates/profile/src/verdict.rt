// The verdict on a table: its places are passed once, from the first on.
ghost use Rattle.std.specs.Prelude.{◌≡◌, ◌<◌, length, option_map};
ghost use Rattle.profile.specs.Profile.{broken, first_breach};
ghost use Rattle.profile.specs.Answers.{rule_number, verdict_of};
ghost use Rattle.profile.specs.Labels.{places_of, Numbered, Open};

use crate::answer::{Breach, Rule, Verdict};
use crate::outline::{Outline, blank};

impl<'a> Outline<'a> {
    // The rule that is broken at a place.
    fn broken(&self, at: usize, numbers: &[u16], until: &[u16]) -> Option<Rule>
        requires at { at < length self.now.words.now }
        requires numbered { Numbered (places_of self.now) self.now.text.now (length self.now.words.now) numbers.now }
        requires open { Open (places_of self.now) self.now.text.now (length self.now.words.now) numbers.now at until.now }
        ensures { option_map rule_number result ≡ broken (places_of self.now) self.now.text.now at }
    {
        if self.is_unsuited(at) {
            return Some(Rule::Statements);
        }
        if self.lacks_body(at) {
            return Some(Rule::Bodies);
        }
        if self.lacks_invariant(at) {
            return Some(Rule::Invariants);
        }
        if self.lacks_label(at, numbers, until) {
            return Some(Rule::Labels);
        }
        None
    }

    // The first breach, where there is one.
    pub(crate) fn judge(&self) -> Verdict
        ensures { verdict_of result ≡ first_breach (broken (places_of self.now) self.now.text.now) (length self.now.words.now) 0 }
    {
        let mut numbers = blank();
        self.number_labels(&mut numbers);
        let mut until = blank();
        for at in 0..self.words.len() {
            if let Some(rule) = self.broken(at, &numbers, &until) {
                return Verdict::Breaks(Breach { rule, place: at });
            }
            self.open(at, &numbers, &mut until);
        }
        Verdict::Fits
    }
}
