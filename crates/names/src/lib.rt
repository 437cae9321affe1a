// Numbers for names: of a list of spans over a text, each span's number, counted from 0 in the order of first occurrence of its bytes.
// Exact for every input, and n log n in the bytes and the spans whatever they are: the blocks of 1, 2, 4, .. bytes have class numbers
// by which spans are compared (R. M. Karp, R. E. Miller, A. L. Rosenberg, 1972).

#![tactic(auto)]

mod blocks;
mod classes;
mod pairs;
mod ranks;
mod spans;

ghost use Rattle.std.specs.Prelude.{◌≡◌, [], length};
ghost use Rattle.names.specs.Names.{names, numbering, distinct};
ghost use Rattle.tree.specs.Outline.{filled};

use ranks::rank;
use spans::Spans;

// How many spans are numbered, and how many bytes of a text are read.
pub const MOST_SPANS: usize = 32768;

pub const MOST_BYTES: usize = 65535;

// How many numbers the arrays have: one for each byte, and two for each span.
const SMALL: usize = 4096;

const LARGE: usize = 65536;

// Writes the number of each span's bytes, as far as `numbers` goes; the answer is how many are distinct. A span is two words, its start
// and its length; of one that passes the text's end, what of it is in the text.
pub fn number_spans(text: &[u8], spans: &[u32], numbers: &mut [u16]) -> usize
    ensures { (result ≡ length (distinct [] (names text.now spans.now))) × (numbers.new ≡ filled (numbering [] (names text.now spans.now)) numbers.old) }
{
    let text = &text[..text.len().min(MOST_BYTES)];
    if text.len().max(spans.len()) <= SMALL {
        number_in(&Spans::<SMALL>::new(text, spans), numbers)
    } else {
        number_in(&Spans::<LARGE>::new(text, spans), numbers)
    }
}

// The same in arrays of N numbers.
fn number_in<const N: usize>(spans: &Spans<N>, numbers: &mut [u16]) -> usize
    ensures { (result ≡ length (distinct [] (names spans.now.text.now spans.now.words.now))) × (numbers.new ≡ filled (numbering [] (names spans.now.text.now spans.now.words.now)) numbers.old) }
{
    let mut classes = [0u16; N];
    let mut keys = [0u16; N];
    spans.span_keys(&mut classes, &mut keys);
    spans.first_equal(&mut keys);
    let ranks = &mut keys[..spans.count];
    let count = rank(ranks);
    tree::fill(ranks, numbers);
    count
}
