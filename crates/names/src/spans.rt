// Keys of spans: two spans of one length have the same two keys exactly when their bytes are equal. The keys are the classes of the first
// and of the last block of a span, whose width is the greatest power of two that is no greater than the span's length.
ghost use Rattle.std.specs.Prelude.{◌≡◌, ◌+◌, ◌<◌, ◌≤◌, min, length};
ghost use Rattle.names.specs.Names.{most_spans, most_bytes, names};
ghost use Rattle.names.specs.Spans.{start_of, length_of, Longest, KeyTaken, KeysTaken, Lengths, Sized, KeyedAll, FirstEqual};

use crate::MOST_SPANS;
use crate::blocks::{bytes, widen};
use crate::pairs::pair_classes;

// How many values a byte has.
const BYTE_VALUES: usize = 256;

// Spans over a text that is read whole: two words each, a start and a length. Their keys are below `most`, and N numbers are enough for
// the text's bytes, and for two keys of each span.
#[derive(Drop)]
pub(crate) struct Spans<'a, const N: usize> {
    pub(crate) text: &'a [u8],
    pub(crate) words: &'a [u32],
    pub(crate) count: usize,
    pub(crate) most: usize,
    ghost sized: { Sized text.now words.now count most },
    ghost bytes_fit: { length text.now ≤ N },
    ghost keys_fit: { count + count ≤ N },
    ghost size: { N ≤ 65536 },
}

impl<'a, const N: usize> Spans<'a, N> {
    pub(crate) fn new(text: &'a [u8], words: &'a [u32]) -> Self
        requires few_bytes { length text.now ≤ most_bytes }
        requires bytes_fit { length text.now ≤ N }
        requires keys_fit { min (length words.now) (most_spans + most_spans) ≤ N }
        requires size { N ≤ 65536 }
        ensures text { result.text.now ≡ text.now }
        ensures words { result.words.now ≡ words.now }
    {
        let count = (words.len() / 2).min(MOST_SPANS);
        let most = (text.len() + 1).max(count).max(BYTE_VALUES);
        Spans {
            text,
            words,
            count,
            most,
        }
    }

    // Where a span starts in the text, and how long it is there.
    fn start(&self, i: usize) -> usize
        requires { i < self.now.count }
        ensures { result ≡ start_of (length self.now.text.now) self.now.words.now i }
    {
        (tree::get(self.words, 2 * i) as usize).min(self.text.len())
    }

    fn length(&self, i: usize) -> usize
        requires { i < self.now.count }
        ensures { result ≡ length_of (length self.now.text.now) self.now.words.now i }
    {
        let rest = self.text.len() - self.start(i);
        (tree::get(self.words, 2 * i + 1) as usize).min(rest)
    }

    // The greatest length of a span.
    fn longest(&self) -> usize
        ensures { Longest (length self.now.text.now) self.now.words.now self.now.count result }
    {
        let mut most = 0;
        // Kept: `(0..self.count).map(|i| self.length(i)).max()` was tried. The check stops at the closure over `self`, a struct with a lifetime
        // and a size ("no lifetime parameter at the index 3"); a closure over its two slices needs a second function for the length.
        for i in 0..self.count {
            most = most.max(self.length(i));
        }
        most
    }

    // The keys of a span, if its length is at least w and below 2 w. Keys stand at i and at i + count.
    // Kept: `classes` and `keys` apart, here and below: one is read while the other is written.
    fn take_key(&self, i: usize, w: usize, classes: &[u16; N], keys: &mut [u16; N])
        requires span { i < self.now.count }
        requires positive { 1 ≤ w }
        requires narrow { w ≤ most_bytes }
        ensures { KeyTaken (length self.now.text.now) self.now.words.now classes.now self.now.count w i keys.old keys.new }
    {
        let length = self.length(i);
        if w <= length && length < w + w {
            let start = self.start(i);
            keys[i] = classes[start];
            keys[i + self.count] = classes[start + (length - w)];
        }
    }

    // The keys of the spans of these lengths.
    fn take_keys(&self, w: usize, classes: &[u16; N], keys: &mut [u16; N])
        requires positive { 1 ≤ w }
        requires narrow { w ≤ most_bytes }
        ensures { KeysTaken (length self.now.text.now) self.now.words.now classes.now self.now.count w self.now.count keys.old keys.new }
    {
        for i in 0..self.count {
            self.take_key(i, w, classes, keys);
        }
    }

    // The keys of the spans, width by width: 1, 2, 4, .. to the longest span's length.
    pub(crate) fn span_keys(&self, classes: &mut [u16; N], keys: &mut [u16; N])
        ensures { KeyedAll self.now.text.now self.now.words.now self.now.count self.now.most keys.new }
    {
        bytes(self.text, classes);
        keys.fill(0);
        let longest = self.longest();
        let mut w = 1;
        // Kept: the width doubles from turn to turn, so the turns are no range.
        while w <= longest {
            self.take_keys(w, classes, keys);
            widen(self.text, w, longest, self.most, classes);
            w += w;
        }
    }

    // The lengths of the spans in place of their second keys.
    fn lengths(&self, keys: &mut [u16; N])
        ensures { Lengths (length self.now.text.now) self.now.words.now self.now.count self.now.count keys.old keys.new }
    {
        for i in 0..self.count {
            keys[i + self.count] = self.length(i) as u16;
        }
    }

    // For each span the first span with the same bytes, in place of its first key: the class of its keys, and then of that class and its
    // length.
    pub(crate) fn first_equal(&self, keys: &mut [u16; N])
        requires { KeyedAll self.now.text.now self.now.words.now self.now.count self.now.most keys.old }
        ensures equal { FirstEqual (names self.now.text.now self.now.words.now) self.now.count keys.new }
        ensures len { length keys.new ≡ N }
    {
        pair_classes(keys, self.count, self.count, self.most);
        self.lengths(keys);
        pair_classes(keys, self.count, self.count, self.most);
    }
}
