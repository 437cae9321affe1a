// Rules that open no expression.

#![tactic(auto, using(crate::proofs::Laws::failing), unfolding(grammar::specs::Rules::parse_id_type, grammar::specs::Steps::after, grammar::specs::Rules::parse_optional_type, grammar::specs::Declarations::parse_function_formal, grammar::specs::Declarations::parse_moded, grammar::specs::Rules::after_bar, grammar::specs::Rules::after_old))]

ghost use Rattle.std.specs.Prelude.{◌≡◌, drop};
ghost use Rattle.tree.specs.Codes.{as_mode};
ghost use Rattle.tree.specs.Words.{binding_words, option_words, name_words, f_parameter_words, call_argument_words};
ghost use Rattle.grammar.specs.Declarations.{parse_function_formal, parse_moded};
ghost use Rattle.grammar.specs.Reading.{tree_words};
ghost use Rattle.grammar.specs.Rules.{opens_expr, opens_at, parse_id_type, parse_optional_type, some_type, after_bar, after_old};
ghost use Rattle.grammar.specs.Steps.{parse_name};
ghost use Rattle.parsing.specs.Code.{inner, custom_expr, literal_expr, constant_expr, reference, reference_argument, marked_words, moded_words};
ghost use Rattle.parsing.specs.Contract.{Reads, Reads_if, Spelt, needed, same};

use crate::arena::{END, Node};
use crate::parser::{Parser, too_deep, unusable};
use lexing::refusal::Refusal;
use tree::word::{ExprTag, FALSE, MORE, Mode, TRUE};

// Names and their types.
impl<'a> Parser<'a> {
    // A name.
    pub(crate) fn identifier(&mut self) -> Result<Option<u32>, Refusal>
        ensures { Reads_if (name_words same) parse_name 1 0 self.old self.new result }
    {
        match self.name()? {
            Some(name) => Ok(Some(self.push(Node::Two(name.start, name.len)))),
            None => Ok(None),
        }
    }

    #[inline]
    pub(crate) fn need_identifier(&mut self) -> Result<u32, Refusal>
        ensures { Reads (name_words same) (needed parse_name) 1 0 self.old self.new result }
    {
        let name = self.need_name()?;
        Ok(self.push(Node::Two(name.start, name.len)))
    }

    // `parseIdType`.
    pub(crate) fn id_type(&mut self) -> Result<Option<u32>, Refusal>
        ensures { Reads_if (binding_words same) parse_id_type 1 0 self.old self.new result }
    {
        let Some(name) = self.identifier()? else {
            return Ok(None);
        };
        self.need_sym(b":")?;
        let typ = self.need_identifier()?;
        Ok(Some(self.pair(name, typ)))
    }

    // Kept: as `need_x` of src/parser.rt.
    #[inline]
    pub(crate) fn need_id_type(&mut self) -> Result<u32, Refusal>
        ensures { Reads (binding_words same) (needed parse_id_type) 1 0 self.old self.new result }
    {
        let place = self.at;
        self.id_type()?.ok_or(unusable(place))
    }

    // `parseIdType`, with a word between the name and the type.
    // Kept: beside `id_type`, as the word stands in one node with the name.
    fn marked_type(&mut self, word: u32) -> Result<Option<u32>, Refusal>
        ensures { Reads_if (marked_words word) parse_id_type 1 0 self.old self.new result }
    {
        let Some(name) = self.name()? else {
            return Ok(None);
        };
        self.need_sym(b":")?;
        let marked = self.push(Node::Three(name.start, name.len, word));
        let typ = self.need_identifier()?;
        Ok(Some(self.pair(marked, typ)))
    }

    // Kept: as `need_x` of src/parser.rt.
    #[inline]
    fn need_marked_type(&mut self, word: u32) -> Result<u32, Refusal>
        ensures { Reads (marked_words word) (needed parse_id_type) 1 0 self.old self.new result }
    {
        let place = self.at;
        self.marked_type(word)?.ok_or(unusable(place))
    }

    // The type of `parseIdOptionalType`.
    pub(crate) fn optional_type(&mut self) -> Result<u32, Refusal>
        ensures { Reads (option_words (name_words same)) parse_optional_type 0 0 self.old self.new result }
    {
        if self.sym_not_prefix(b":", b":=")? {
            return self.typed();
        }
        Ok(END)
    }

    // A type that must follow.
    pub(crate) fn typed(&mut self) -> Result<u32, Refusal>
        ensures { Reads (option_words (name_words same)) some_type 1 0 self.old self.new result }
    {
        let name = self.need_name()?;
        Ok(self.push(Node::Three(MORE, name.start, name.len)))
    }

    // `parseFunctionFormal`.
    pub(crate) fn formal(&mut self) -> Result<Option<u32>, Refusal>
        ensures { Reads_if (f_parameter_words same) parse_function_formal 1 0 self.old self.new result }
    {
        if self.keyword(b"injective")? {
            return Ok(Some(self.need_marked_type(TRUE)?));
        }
        self.marked_type(FALSE)
    }

    // `parseParameterMode`, and the name and the type of a parameter.
    pub(crate) fn moded(&mut self) -> Result<Option<u32>, Refusal>
        ensures { Reads_if moded_words parse_moded 1 0 self.old self.new result }
    {
        if self.keyword(b"inout")? {
            return Ok(Some(self.need_marked_type(Mode::InOut as u32)?));
        }
        if self.keyword(b"out")? {
            return Ok(Some(self.need_marked_type(Mode::Out as u32)?));
        }
        self.marked_type(Mode::In as u32)
    }

    // `out` or `inout` and a name.
    pub(crate) fn by_name(&mut self) -> Result<Option<u32>, Refusal>
        ensures { Reads_if (call_argument_words same) reference_argument 1 0 self.old self.new result }
    {
        if self.keyword(b"out")? {
            return Ok(Some(self.reference(Mode::Out)?));
        }
        if self.keyword(b"inout")? {
            return Ok(Some(self.reference(Mode::InOut)?));
        }
        Ok(None)
    }

    // The name that must follow `out` or `inout`.
    fn reference(&mut self, mode: Mode) -> Result<u32, Refusal>
        ensures { Reads (call_argument_words same) (reference (as_mode mode)) 1 0 self.old self.new result }
    {
        let name = self.need_name()?;
        let variable = self.push(Node::Ident(name.start, name.len, false));
        Ok(self.push(Node::Headed(u32::from(mode), variable)))
    }
}

// Operands.
impl<'a> Parser<'a> {
    // A natural or a custom literal.
    pub(crate) fn literal(&mut self) -> Result<Option<u32>, Refusal>
        ensures { Reads_if tree_words literal_expr 1 0 self.old self.new result }
    {
        if let Some(value) = self.natural()? {
            let high = (value / 4294967296) as u32;
            let low = (value % 4294967296) as u32;
            return Ok(Some(self.push(Node::Three(ExprTag::ILiteral as u32, high, low))));
        }
        self.custom()
    }

    // A custom literal.
    fn custom(&mut self) -> Result<Option<u32>, Refusal>
        ensures { Reads_if tree_words custom_expr 1 0 self.old self.new result }
    {
        if self.sym(b"|")? {
            return Ok(Some(self.after_bar()?));
        }
        Ok(None)
    }

    // After `|`.
    fn after_bar(&mut self) -> Result<u32, Refusal>
        ensures { Reads tree_words after_bar 1 0 self.old self.new result }
    {
        let text = self.need_literal_text()?;
        let value = self.push(Node::Three(ExprTag::CustomLiteral as u32, text.start, text.len));
        self.need_sym(b":")?;
        let typ = self.need_identifier()?;
        self.need_sym(b"|")?;
        Ok(self.pair(value, typ))
    }

    // What begins with a word of `len` bytes and opens no expression: `false`, `true` or `old`.
    pub(crate) fn constant(&mut self, len: usize) -> Result<Option<u32>, Refusal>
        requires { Spelt self.old len }
        ensures { Reads_if tree_words constant_expr 1 0 self.old self.new result }
    {
        if self.keyword_of(len, b"false")? {
            return Ok(Some(self.push(Node::Two(ExprTag::BLiteral as u32, FALSE))));
        }
        if self.keyword_of(len, b"true")? {
            return Ok(Some(self.push(Node::Two(ExprTag::BLiteral as u32, TRUE))));
        }
        if self.keyword_of(len, b"old")? {
            return Ok(Some(self.old()?));
        }
        Ok(None)
    }

    // After `old`.
    fn old(&mut self) -> Result<u32, Refusal>
        ensures { Reads tree_words after_old 1 0 self.old self.new result }
    {
        let name = self.need_name()?;
        Ok(self.push(Node::Ident(name.start, name.len, true)))
    }

    // `parseExpr` where no level is left: refusal 3 if an expression's first token stands here.
    pub(crate) fn too_deep_expr(&self) -> Result<Option<u32>, Refusal>
        ensures { Reads_if tree_words (inner 0) 1 0 self.now self.now result }
    {
        if self.opens_expr() {
            return Err(too_deep(self.at));
        }
        Ok(None)
    }

    // Whether an expression's first token stands here.
    fn opens_expr(&self) -> bool
        ensures { result ≡ opens_expr (drop self.now.at self.now.text.now) }
    {
        self.word_ahead().is_some() || opens_at(self.peek(0), self.peek(1))
    }
}

// Whether an expression that begins with no word has these first two bytes.
#[tactic(auto, unfolding(grammar::specs::Rules::opens_at, lexing::specs::Bytes::is_digit))]
fn opens_at(b: u8, after: u8) -> bool
    ensures { result ≡ opens_at b after }
{
    match b {
        b'!' => after != b'=',
        b'|' | b'(' | b'-' | b'0'..=b'9' => true,
        _ => false,
    }
}
