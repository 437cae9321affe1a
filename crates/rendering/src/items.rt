// Optional parts, and lists of names, arguments and parameters. Each method prints the words from the next one on, and passes them.
ghost use Rattle.std.specs.Prelude.{◌≡◌};
ghost use Rattle.std.specs.Fn.{FnOnceReturnsAtMut};
ghost use Rattle.rendering.specs.Parts.{Prints};
ghost use Rattle.rendering.specs.Sequences.{Calls, Moves, Optionally, Repeatedly, one};
ghost use Rattle.rendering.specs.StmtParts.{one_line, mode_bytes, typed_apart, an_argument, a_formal, a_parameter};

use crate::printer::Printer;
use crate::setting::Setting;
use tree::word::{FALSE, Mode, NO_MORE};

// `ParameterMode`.
fn mode_text(mode: Option<Mode>) -> &'static [u8]
    ensures { result.now ≡ mode_bytes mode }
{
    match mode {
        Some(Mode::InOut) => b"inout ",
        Some(Mode::Out) => b"out ",
        Some(Mode::In) => b"",
        None => b"",
    }
}

impl<'a> Printer<'a> {
    // What is there, after its prefix, or nothing.
    pub(crate) fn optional<F: FnOnce(&mut Printer<'a>)>(&mut self, prefix: &[u8], content: F)
        requires { F.IsAlwaysCallable content }
        ensures { Optionally (λ s s'. FnOnceReturnsAtMut F.FnOnce content s tt s') prefix.now self.old self.new }
    {
        if self.word() != NO_MORE {
            self.put(prefix);
            content(self);
        }
    }

    // The items from here on, with text before the first and a separator before each other.
    pub(crate) fn separated<F: Fn(&mut Printer<'a>)>(
        &mut self,
        first: &[u8],
        separator: &[u8],
        item: F,
    )
        requires callable { F.IsAlwaysCallable item }
        requires moves { Moves (Calls F.Fn item) }
        ensures { Repeatedly (Calls F.Fn item) separator.now first.now self.old self.new }
    {
        let mut before = first;
        while self.word() != NO_MORE {
            self.put_any(before);
            item(self);
            before = separator;
        }
    }
}

impl Printer<'_> {
    // An expression on one line.
    pub(crate) fn inline(&mut self)
        ensures { Prints one_line self.old self.new }
    {
        self.expr(Setting::INLINE);
    }

    pub(crate) fn argument(&mut self)
        ensures { Prints (one an_argument) self.old self.new }
    {
        let mode = Mode::from_word(self.word());
        self.put_any(mode_text(mode));
        self.inline();
    }

    pub(crate) fn formal(&mut self)
        ensures { Prints (one a_formal) self.old self.new }
    {
        if self.ahead(2) != FALSE {
            self.put(b"injective ");
        }
        self.typed_apart();
    }

    pub(crate) fn parameter(&mut self)
        ensures { Prints (one a_parameter) self.old self.new }
    {
        let mode = Mode::from_word(self.ahead(2));
        self.put_any(mode_text(mode));
        self.typed_apart();
        self.optional(b" autoinv ", |p| p.inline());
    }

    // A name and its type, with one word between them.
    fn typed_apart(&mut self)
        ensures { Prints typed_apart self.old self.new }
    {
        self.name_then(b": ");
        self.word();
        self.name();
    }
}
