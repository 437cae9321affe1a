// A table that words are written to, one after the other from its start.
ghost use Rattle.std.specs.Prelude.{◌≤◌, length};

// The table has no place left.
#[derive(Clone, Copy, PartialEq, Eq, Debug)]
pub(crate) struct Full;

// The table, and how many words are written.
#[derive(Drop)]
pub(crate) struct Writer<'a> {
    pub(crate) table: &'a mut [u32],
    pub(crate) len: usize,
    ghost inside: { len ≤ length table.now },
}

impl<'a> Writer<'a> {
    ghost use Rattle.std.specs.Prelude.{◌++◌};
    ghost use Rattle.reading.specs.Flat.{Writes};

    // Writes words. Inlined, so that a few are stored without a loop.
    #[inline(always)]
    pub(crate) fn emit(&mut self, words: &[u32]) -> Result<(), Full>
        ensures { Writes (λ rest. words.now ++ rest) self.old self.new result }
    {
        let end = self.len + words.len();
        if self.table.len() < end {
            return Err(Full);
        }
        self.table[self.len..end].copy_from_slice(words);
        self.len = end;
        Ok(())
    }
}
