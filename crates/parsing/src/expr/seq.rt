// Sequences that commas part, and the rules that have them.

#![tactic(auto, using(crate::proofs::Laws::failing), unfolding(grammar::specs::Rules::parse_nonempty_comma_delimited_seq, grammar::specs::Steps::after, grammar::specs::Rules::parse_listed, grammar::specs::Rules::parse_comma_delimited_seq, grammar::specs::Rules::parse_marked, grammar::specs::Rules::after_quantifier, grammar::specs::Rules::after_lift, grammar::specs::Rules::parse_closure_binding, grammar::specs::Rules::parse_parameters, grammar::specs::Rules::parse_closure_property, grammar::specs::Declarations::parse_proc_formal, grammar::specs::Statements::parse_optional_auto_invariant, grammar::specs::Statements::parse_call_argument))]

use crate::arena::{EMPTY, END, Node};
use crate::parser::{Parser, unusable};
use lexing::refusal::Refusal;
use tree::word::{ExprTag, MORE};

// The sequences that commas part.
#[derive(Clone, Copy, PartialEq, Eq, Debug)]
pub(crate) enum Kind {
    Exprs,
    Bindings,
    Closures,
    Properties,
    Names,
    Formals,
    Parameters,
    Arguments,
}

// Sequences.
impl<'a> Parser<'a> {
    ghost use Rattle.std.specs.Prelude.{◌≤◌, length};
    ghost use Rattle.parsing.specs.Contract.{Spare, Reads, Reads_if, needed, same};
    ghost use Rattle.parsing.specs.Expressions.{item_words, list_words, item_rule, items_rule, list_rule, marked_rule};
    ghost use Rattle.tree.specs.Words.{patterns_words};

    #[cycle(expression)]
    fn item(&mut self, kind: Kind, depth: usize) -> Result<Option<u32>, Refusal>
        requires { Spare self.old 1 }
        ensures { Reads_if (item_words kind) (item_rule kind depth) 1 1 self.old self.new result }
    {
        // Kept: `kind` is what the contracts of `items` and `list` name their rule by. Of a closure they could say no more than that its calls ran,
        // and since nothing is inferred of a closure in a cycle of calls, each call would state the rule of the closure that it passes.
        match kind {
            Kind::Exprs => self.expr(depth),
            Kind::Bindings => self.id_type(),
            Kind::Closures => self.bind(depth),
            Kind::Properties => self.prop(depth),
            Kind::Names => self.identifier(),
            Kind::Formals => self.formal(),
            Kind::Parameters => self.param(depth),
            Kind::Arguments => self.arg(depth),
        }
    }

    // `parseNonemptyCommaDelimitedSeq`.
    #[cycle(expression)]
    pub(crate) fn items(&mut self, kind: Kind, depth: usize) -> Result<Option<u32>, Refusal>
        requires { Spare self.old 3 }
        ensures { Reads_if (list_words kind) (items_rule kind depth) 1 3 self.old self.new result }
    {
        let Some(first) = self.item(kind, depth)? else {
            return Ok(None);
        };
        let mut list = self.push(Node::Item(EMPTY, first));
        while self.sym(b",")? {
            let at = self.at;
            let item = self.item(kind, depth)?.ok_or(unusable(at))?;
            list = self.push(Node::Item(list, item));
        }
        Ok(Some(self.close(list)))
    }

    // Kept: as `need_x` of src/parser.rt, and a member of the cycle, where a closure has to write its clauses.
    #[cycle(expression)]
    #[inline]
    pub(crate) fn need_items(&mut self, kind: Kind, depth: usize) -> Result<u32, Refusal>
        requires { Spare self.old 3 }
        ensures { Reads (list_words kind) (needed (items_rule kind depth)) 1 3 self.old self.new result }
    {
        let at = self.at;
        self.items(kind, depth)?.ok_or(unusable(at))
    }

    // `parseCommaDelimitedSeq`, and the sign that closes it.
    #[cycle(expression)]
    pub(crate) fn list(&mut self, kind: Kind, close: &[u8], depth: usize) -> Result<u32, Refusal>
        requires room { Spare self.old 3 }
        requires in_bounds { 1 ≤ length close.now }
        ensures { Reads (list_words kind) (list_rule kind close.now depth) 1 1 self.old self.new result }
    {
        let items = self.items(kind, depth)?.unwrap_or(END);
        self.need_sym(close)?;
        Ok(items)
    }

    // `pattern` or `trigger` and expressions, again and again.
    #[cycle(expression)]
    fn marks(&mut self, bytes: &[u8], depth: usize) -> Result<u32, Refusal>
        requires { 3 ≤ length bytes.now }
        ensures { Reads (patterns_words same) (marked_rule bytes.now depth) 0 0 self.old self.new result }
    {
        let mut list = EMPTY;
        while self.keyword(bytes)? {
            let es = self.need_items(Kind::Exprs, depth)?;
            list = self.push(Node::Item(list, es));
        }
        Ok(self.close(list))
    }
}

// The rules that have them.
impl<'a> Parser<'a> {
    ghost use Rattle.grammar.specs.Reading.{tree_words};
    ghost use Rattle.grammar.specs.Rules.{after_lift, parse_parameters};
    ghost use Rattle.parsing.specs.Contract.{Spare, Reads, Reads_if, same};
    ghost use Rattle.grammar.specs.Statements.{parse_optional_auto_invariant};
    ghost use Rattle.parsing.specs.Code.{turns, turning, opening};
    ghost use Rattle.parsing.specs.Expressions.{quantifier_rule, closure_words, property_words, item_rule};
    ghost use Rattle.parsing.specs.declared.expr.seq.Kind.TheVariants.{Closures, Properties, Parameters, Arguments};
    ghost use Rattle.tree.specs.Words.{seq_words, binding_words, option_words, p_parameter_words, call_argument_words};

    // After `forall` or `exists`.
    // Kept: `universal` is QuantifierExpr's own field, a Bool in RawAst, and chooses no step.
    #[cycle(expression)]
    pub(crate) fn quant(&mut self, universal: bool, depth: usize) -> Result<u32, Refusal>
        requires { Spare self.old 7 }
        ensures { Reads tree_words (quantifier_rule universal depth) 1 7 self.old self.new result }
    {
        let head = self.push(Node::Two(ExprTag::QuantifierExpr as u32, u32::from(universal)));
        let bindings = self.need_items(Kind::Bindings, depth)?;
        let patterns = self.marks(b"pattern", depth)?;
        let body = self.need_expr(depth)?;
        Ok(self.four(head, bindings, patterns, body))
    }

    // After `lift`.
    #[cycle(expression)]
    pub(crate) fn lift(&mut self, depth: usize) -> Result<u32, Refusal>
        requires { Spare self.old 4 }
        ensures { Reads tree_words (turning after_lift depth) 1 4 self.old self.new result }
    {
        let head = self.push(Node::One(ExprTag::ClosureExpr as u32));
        let bindings = self.need_items(Kind::Closures, depth)?;
        self.need_keyword(b"into")?;
        let name = self.need_identifier()?;
        self.need_sym(b":")?;
        let typ = self.need_identifier()?;
        let result = self.pair(name, typ);
        self.need_keyword(b"by")?;
        self.need_sym(b"{")?;
        let properties = self.list(Kind::Properties, b"}", depth)?;
        Ok(self.four(head, bindings, result, properties))
    }

    // `parseClosureBinding`.
    #[cycle(expression)]
    fn bind(&mut self, depth: usize) -> Result<Option<u32>, Refusal>
        ensures { Reads_if closure_words (item_rule Closures depth) 1 0 self.old self.new result }
    {
        let Some(bound) = self.name()? else {
            return Ok(None);
        };
        let name = self.push(Node::Two(bound.start, bound.len));
        let parameters = self.params(depth)?;
        self.need_sym(b":=")?;
        let head = self.pair(name, parameters);
        let rhs = self.need_expr(depth)?;
        Ok(Some(self.pair(head, rhs)))
    }

    // The parameters of a closure binding, or none.
    #[cycle(expression)]
    fn params(&mut self, depth: usize) -> Result<u32, Refusal>
        requires { Spare self.old 1 }
        ensures { Reads (seq_words (binding_words same)) (λ text. parse_parameters text (turns text)) 0 1 self.old self.new result }
    {
        if self.sym(b"(")? {
            return self.list(Kind::Bindings, b")", depth);
        }
        Ok(END)
    }

    // `parseClosureProperty`.
    #[cycle(expression)]
    fn prop(&mut self, depth: usize) -> Result<Option<u32>, Refusal>
        requires { Spare self.old 1 }
        ensures { Reads_if property_words (item_rule Properties depth) 1 1 self.old self.new result }
    {
        if self.word_here(b"trigger") {
            let triggers = self.marks(b"trigger", depth)?;
            let body = self.need_expr(depth)?;
            return Ok(Some(self.pair(triggers, body)));
        }
        let Some(body) = self.expr(depth)? else {
            return Ok(None);
        };
        Ok(Some(self.pair(END, body)))
    }

    // `parseProcFormal`.
    #[cycle(expression)]
    fn param(&mut self, depth: usize) -> Result<Option<u32>, Refusal>
        requires { Spare self.old 1 }
        ensures { Reads_if (p_parameter_words same) (item_rule Parameters depth) 1 1 self.old self.new result }
    {
        let Some(moded) = self.moded()? else {
            return Ok(None);
        };
        let invariant = self.auto_invariant(depth)?;
        Ok(Some(self.pair(moded, invariant)))
    }

    // `autoinv` and an expression, or none.
    #[cycle(expression)]
    pub(crate) fn auto_invariant(&mut self, depth: usize) -> Result<u32, Refusal>
        ensures { Reads (option_words tree_words) (opening parse_optional_auto_invariant depth) 0 0 self.old self.new result }
    {
        if self.keyword(b"autoinv")? {
            let e = self.need_expr(depth)?;
            return Ok(self.push(Node::Headed(MORE, e)));
        }
        Ok(END)
    }

    // `parseCallArgument`.
    #[cycle(expression)]
    fn arg(&mut self, depth: usize) -> Result<Option<u32>, Refusal>
        requires { Spare self.old 1 }
        ensures { Reads_if (call_argument_words same) (item_rule Arguments depth) 1 1 self.old self.new result }
    {
        if let Some(named) = self.by_name()? {
            return Ok(Some(named));
        }
        let Some(e) = self.expr(depth)? else {
            return Ok(None);
        };
        Ok(Some(self.push(Node::Headed(MORE, e))))
    }
}
