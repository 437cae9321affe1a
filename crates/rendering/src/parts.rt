// The parts of prints that have no expressions in them. Each method prints the words from the next one on, and passes them.
ghost use Rattle.rendering.specs.Parts.{Prints, a_name, name_head, typed_name, id_type, bindings, quantified, closure_parameters};
ghost use Rattle.rendering.specs.Parts.{a_bool, a_natural, custom_literal, identifier};

use crate::printer::Printer;
use tree::word::FALSE;
use tree::{name, natural};

impl Printer<'_> {
    pub(crate) fn name(&mut self)
        ensures { Prints a_name self.old self.new }
    {
        let start = self.word();
        let size = self.word();
        self.put(name(self.source.text, start, size));
    }

    // A name, and text after it. Inlined, so that a fixed text is stored without a loop.
    #[inline(always)]
    pub(crate) fn name_then(&mut self, suffix: &[u8])
        ensures { Prints (name_head suffix.now) self.old self.new }
    {
        self.name();
        self.put(suffix);
    }

    // A name and its type.
    pub(crate) fn typed(&mut self)
        ensures { Prints typed_name self.old self.new }
    {
        self.name_then(b": ");
        self.name();
    }

    // `IdTypeDecl` of a name and an optional type.
    pub(crate) fn id_type(&mut self, prefix: &[u8])
        ensures { Prints (id_type prefix.now) self.old self.new }
    {
        self.put(prefix);
        self.name();
        self.optional(b": ", |p| p.name());
    }

    // `Bindings`.
    fn bindings(&mut self, prefix: &[u8])
        ensures { Prints (bindings prefix.now) self.old self.new }
    {
        self.separated(prefix, b", ", |p| p.typed());
    }

    // A quantifier's Bool and bindings.
    pub(crate) fn quantified(&mut self)
        ensures { Prints quantified self.old self.new }
    {
        if self.word() == FALSE {
            self.bindings(b"exists ");
        } else {
            self.bindings(b"forall ");
        }
    }

    // A closure binding's parameters.
    pub(crate) fn parameters(&mut self)
        ensures { Prints closure_parameters self.old self.new }
    {
        if self.is_at_end() {
            self.word();
        } else {
            self.put(b"(");
            self.bindings(b"");
            self.put(b")");
        }
    }

    pub(crate) fn bool_literal(&mut self)
        ensures { Prints a_bool self.old self.new }
    {
        if self.word() == FALSE {
            self.put(b"false");
        } else {
            self.put(b"true");
        }
    }

    pub(crate) fn natural_literal(&mut self)
        ensures { Prints a_natural self.old self.new }
    {
        let value = natural(self.source.words, self.at);
        self.word();
        self.word();
        self.decimal(value);
    }

    pub(crate) fn custom_literal(&mut self)
        ensures { Prints custom_literal self.old self.new }
    {
        self.put(b"|");
        self.typed();
        self.put(b"|");
    }

    // A name after the `old` that follows it in the words.
    #[inline]
    pub(crate) fn identifier(&mut self)
        ensures { Prints identifier self.old self.new }
    {
        if self.ahead(2) != FALSE {
            self.put(b"old ");
        }
        self.name();
        self.word();
    }
}
