// A table with its outline.
ghost use Rattle.std.specs.Prelude.{ℕ, ◌≤◌, ◌≡◌, length, get_or};
ghost use Rattle.tree.specs.Limits.{most_text, most_words};

use tree::MOST_WORDS;

// A table over a text, and of each place the number of the kind that is expected there and the place after what begins there.
#[derive(Clone, Copy)]
pub(crate) struct Outline<'a> {
    pub(crate) text: &'a [u8],
    pub(crate) words: &'a [u32],
    pub(crate) kinds: &'a [u16],
    pub(crate) ends: &'a [u16],
    ghost short: { length text.now ≤ most_text },
    ghost few: { length words.now ≤ most_words },
}

// A number for each word of a table. Callers know its length and that it has no other number than 0, so no proof computes the array.
pub(crate) fn blank() -> [u16; MOST_WORDS]
    ensures room { length result ≡ most_words }
    ensures zero { (i : ℕ) → get_or result i 0 ≡ 0 }
{
    [0; MOST_WORDS]
}
