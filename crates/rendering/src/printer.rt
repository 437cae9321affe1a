// A printer, which reads the words of a table from a place on and writes their print into a buffer.
ghost use Rattle.std.specs.Prelude.{ℕ, List, IsTrue, ◌↔◌, ◌≡◌, ◌++◌, ◌+◌, ◌≤◌, length};
ghost use Rattle.layout.specs.PrintUtil.{Indent, Space, Parenthesis};
ghost use Rattle.layout.specs.Text.{decimal};
ghost use Rattle.rendering.specs.Wrote.{Puts, Takes, Stores};
ghost use Rattle.rendering.specs.Parts.{Reads, Looks, Ends, Counts};

use layout::{BindingPower, ExprFormatOption, Form, Side};
use tree::word::NO_MORE;
use tree::{get, item_or};

// What is printed: the words of a table over a text, how many items each of their sequences has, the indent step, and the form of expressions.
#[derive(Clone, Copy)]
pub(crate) struct Source<'a> {
    pub(crate) text: &'a [u8],
    pub(crate) words: &'a [u32],
    // At the place where a sequence begins, the number of its items.
    pub(crate) counts: &'a [u16],
    pub(crate) step: usize,
    pub(crate) form: Form,
}

#[derive(Drop)]
pub(crate) struct Printer<'a> {
    pub(crate) source: Source<'a>,
    // The place of the next word.
    pub(crate) at: usize,
    pub(crate) out: &'a mut [u8],
    // The place of the next byte. Past the buffer's end it says that something did not fit, and stays so.
    // Kept: with a Result of each write some sixty callers would pass an error on that one test at the end finds.
    pub(crate) pos: usize,
}

// ---- reading

impl Printer<'_> {
    // The next word, which is passed; past the table's end 0, and the place stays.
    // Kept: 0 is also the mark that ends a sequence, so a caller past the table's end stops there.
    pub(crate) fn word(&mut self) -> u32
        ensures { Reads self.old result self.new }
    {
        let Some(word) = self.source.words.get(self.at) else {
            return 0;
        };
        self.at += 1;
        *word
    }

    // The word so many places after the next; past the table's end 0.
    pub(crate) fn ahead(&self, places: usize) -> u32
        ensures { Looks self.now places result }
    {
        get(self.source.words, self.at.saturating_add(places))
    }

    // Whether an option or a sequence that goes on here has no content or item left.
    pub(crate) fn is_at_end(&self) -> bool
        ensures { Ends self.now result }
    {
        self.ahead(0) == NO_MORE
    }

    // How many items the sequence has that begins here.
    pub(crate) fn count(&self) -> usize
        ensures { Counts self.now result }
    {
        usize::from(item_or(self.source.counts, self.at, 0))
    }
}

// ---- writing

impl Printer<'_> {
    // Whether so many bytes fit.
    fn fits(&self, size: usize) -> bool
        ensures { IsTrue result ↔ self.now.pos + size ≤ length self.now.out.now }
    {
        self.pos <= self.out.len() && size <= self.out.len() - self.pos
    }

    // Writes so many bytes, which `fill` stores, where they fit. Inlined, so that a fixed text is stored without a loop.
    #[inline(always)]
    fn write<F: FnOnce(&mut [u8])>(&mut self, size: usize, fill: F)
        requires { Takes F.FnOnce fill size }
        ensures { (x : List ℕ) → length x ≡ size → Stores F.FnOnce fill x → Puts (λ rest. x ++ rest) self.old self.new }
    {
        if self.fits(size) {
            fill(&mut self.out[self.pos..self.pos + size]);
            self.pos += size;
        } else {
            self.pos = self.out.len() + 1;
        }
    }

    // Writes `bytes`.
    #[inline(always)]
    pub(crate) fn put(&mut self, bytes: &[u8])
        ensures { Puts (λ rest. bytes.now ++ rest) self.old self.new }
    {
        self.write(bytes.len(), |place| place.copy_from_slice(bytes));
    }

    // Writes `bytes` that are one text or another. Not inlined: as a copy of a constant's bytes it would call what nothing else here needs.
    #[inline(never)]
    pub(crate) fn put_any(&mut self, bytes: &[u8])
        ensures { Puts (λ rest. bytes.now ++ rest) self.old self.new }
    {
        self.put(bytes);
    }

    // Writes an indent.
    pub(crate) fn indent(&mut self, size: usize)
        ensures { Puts (λ rest. Indent size ++ rest) self.old self.new }
    {
        self.write(size, |place| place.fill(b' '));
    }

    // Writes a natural in decimal.
    pub(crate) fn decimal(&mut self, value: u64)
        ensures { Puts (decimal value) self.old self.new }
    {
        let digit = [b'0' + (value % 10) as u8];
        if 10 <= value {
            self.decimal(value / 10);
            self.put(&digit);
        } else {
            self.put(&digit);
        }
    }

    // Writes a space, or a line end and the indent.
    pub(crate) fn space(&mut self, format: ExprFormatOption)
        ensures { Puts (λ rest. Space format ++ rest) self.old self.new }
    {
        match format {
            ExprFormatOption::SingleLine => self.put(b" "),
            ExprFormatOption::MultipleLines(indent) => {
                self.put(b"\n");
                self.indent(indent);
            }
        }
    }

    // Writes a parenthesis, where an operator of this strength needs one in a context.
    pub(crate) fn parenthesis(&mut self, strength: BindingPower, side: Side, context: BindingPower)
        ensures { Puts (λ rest. Parenthesis side strength context ++ rest) self.old self.new }
    {
        if !strength.wins_over(context) {
            match side {
                Side::Left => self.put(b"("),
                Side::Right => self.put(b")"),
            }
        }
    }
}
