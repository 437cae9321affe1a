// The reading rules of declarations, each after its word. `depth` is how many levels may be opened.

#![tactic(auto, using(crate::proofs::Laws::failing, crate::proofs::DeclarationRules::having_expr), unfolding(grammar::specs::Declarations::after_type, grammar::specs::Declarations::after_tagger, grammar::specs::Declarations::parse_tag, grammar::specs::Declarations::parse_function_definition, grammar::specs::Declarations::after_function, grammar::specs::Declarations::parse_explains, grammar::specs::Declarations::after_axiom, grammar::specs::Declarations::after_procedure))]

use crate::arena::{END, Node};
use crate::expr::seq::Kind;
use crate::parser::{Parser, unusable};
use crate::stmt::Repeated;
use lexing::refusal::Refusal;
use tree::word::MORE;

impl<'a> Parser<'a> {
    ghost use Rattle.tree.specs.Words.{option_words, seq_words, name_words, tagger_words, function_definition_words, function_words, axiom_words, procedure_words, stmt_words};
    ghost use Rattle.grammar.specs.Declarations.{after_type, after_tagger, parse_tag, parse_function_definition, after_function, parse_explains, after_axiom, after_procedure};
    ghost use Rattle.parsing.specs.Code.{opening};
    ghost use Rattle.parsing.specs.Contract.{Spare, Reads, same};
    ghost use Rattle.parsing.specs.Declarations.{body_rule};

    // After `type`.
    pub(crate) fn type_decl(&mut self) -> Result<u32, Refusal>
        ensures { Reads (name_words same) after_type 1 0 self.old self.new result }
    {
        self.need_identifier()
    }

    // After `tagger`.
    pub(crate) fn tagger_decl(&mut self) -> Result<u32, Refusal>
        ensures { Reads (tagger_words same) after_tagger 1 0 self.old self.new result }
    {
        let name = self.need_identifier()?;
        self.need_keyword(b"for")?;
        let typ = self.need_identifier()?;
        Ok(self.pair(name, typ))
    }

    // The tag of a function, or none.
    fn tag(&mut self) -> Result<u32, Refusal>
        ensures { Reads (option_words (name_words same)) parse_tag 0 0 self.old self.new result }
    {
        if self.keyword(b"tag")? {
            return self.typed();
        }
        Ok(END)
    }

    // `parseFunctionDefinition`, or none: where `when` stands a body must follow.
    fn definition(&mut self, depth: usize) -> Result<u32, Refusal>
        requires { Spare self.old 1 }
        ensures { Reads (option_words (function_definition_words same)) (opening parse_function_definition depth) 0 1 self.old self.new result }
    {
        let guarded = self.word_here(b"when");
        let when = self.many(Repeated::Whens, depth)?;
        let place = self.at;
        if self.sym(b"{")? {
            let body = self.need_expr(depth)?;
            self.need_sym(b"}")?;
            let definition = self.pair(when, body);
            return Ok(self.push(Node::Headed(MORE, definition)));
        }
        if guarded {
            return Err(unusable(place));
        }
        Ok(END)
    }

    // After `function`.
    pub(crate) fn function_decl(&mut self, depth: usize) -> Result<u32, Refusal>
        requires { Spare self.old 2 }
        ensures { Reads (function_words same) (opening after_function depth) 1 2 self.old self.new result }
    {
        let name = self.need_identifier()?;
        self.need_sym(b"(")?;
        let formals = self.list(Kind::Formals, b")", depth)?;
        let head = self.pair(name, formals);
        self.need_sym(b":")?;
        let typ = self.need_identifier()?;
        let tag = self.tag()?;
        let definition = self.definition(depth)?;
        Ok(self.four(head, typ, tag, definition))
    }

    // The names that an axiom explains, or none.
    fn explains(&mut self, depth: usize) -> Result<u32, Refusal>
        ensures { Reads (seq_words (name_words same)) (opening parse_explains depth) 0 0 self.old self.new result }
    {
        if self.keyword(b"explains")? {
            return self.need_items(Kind::Names, depth);
        }
        Ok(END)
    }

    // After `axiom`.
    pub(crate) fn axiom_decl(&mut self, depth: usize) -> Result<u32, Refusal>
        requires { Spare self.old 1 }
        ensures { Reads (axiom_words same) (opening after_axiom depth) 1 1 self.old self.new result }
    {
        let names = self.explains(depth)?;
        let e = self.need_expr(depth)?;
        Ok(self.pair(names, e))
    }

    // The body of a procedure, or none.
    fn body(&mut self, depth: usize) -> Result<u32, Refusal>
        ensures { Reads (option_words (stmt_words same)) (body_rule depth) 0 0 self.old self.new result }
    {
        match self.block(depth)? {
            Some(s) => Ok(self.push(Node::Headed(MORE, s))),
            None => Ok(END),
        }
    }

    // After `procedure`.
    pub(crate) fn proc_decl(&mut self, depth: usize) -> Result<u32, Refusal>
        requires { Spare self.old 5 }
        ensures { Reads (procedure_words same) (opening after_procedure depth) 1 5 self.old self.new result }
    {
        let name = self.need_identifier()?;
        self.need_sym(b"(")?;
        let parameters = self.list(Kind::Parameters, b")", depth)?;
        let head = self.pair(name, parameters);
        let pre = self.many(Repeated::Requires, depth)?;
        let post = self.many(Repeated::Ensures, depth)?;
        let body = self.body(depth)?;
        Ok(self.four(head, pre, post, body))
    }
}
