// Statements that hold no statement, and "stmt" where no level is left.

#![tactic(auto, using(crate::proofs::Laws::failing, crate::proofs::StatementPlaces::sparing, crate::proofs::StatementEquations::equations), unfolding(grammar::specs::Statements::parse_init, grammar::specs::Declarations::parse_when_clause, grammar::specs::Statements::after_assign, grammar::specs::Statements::after_call))]

ghost use Rattle.tree.specs.Words.{option_words, stmt_words};
ghost use Rattle.grammar.specs.Reading.{tree_words};
ghost use Rattle.grammar.specs.Statements.{parse_init, after_assign, after_call};
ghost use Rattle.grammar.specs.Declarations.{parse_when_clause};
ghost use Rattle.parsing.specs.Contract.{Spare, Reads, same, needed, span};
ghost use Rattle.parsing.specs.Code.{inner, turns, opened, opening};
ghost use Rattle.parsing.specs.Statements.{Spares_if, Stops, headed, stmt_rule, simple_rule, reinit_stmt, exit_stmt};

use crate::arena::{END, Node};
use crate::expr::seq::Kind;
use crate::lead::{Lead, Simple};
use crate::parser::{Name, Parser, too_deep, too_deep_if};
use lexing::refusal::Refusal;
use tree::word::{MORE, NO_MORE, StmtTag};

impl<'a> Parser<'a> {
    // The word `tag` and an expression, which must follow.
    pub(crate) fn stated(&mut self, tag: u32, depth: usize) -> Result<u32, Refusal>
        requires { Spare self.old 1 }
        ensures { Reads (headed tag tree_words) (needed (inner depth)) 1 1 self.old self.new result }
    {
        let e = self.need_expr(depth)?;
        Ok(self.push(Node::Headed(tag, e)))
    }

    // `parseInit`.
    pub(crate) fn init(&mut self, depth: usize) -> Result<u32, Refusal>
        ensures { Reads (option_words tree_words) (opening parse_init depth) 0 0 self.old self.new result }
    {
        if self.sym(b":=")? {
            return self.stated(MORE, depth);
        }
        Ok(END)
    }

    // `parseWhenClause`.
    pub(crate) fn when(&mut self, depth: usize) -> Result<Option<u32>, Refusal>
        ensures { Spares_if tree_words (opening parse_when_clause depth) self.old self.new result }
    {
        if !self.keyword(b"when")? {
            return Ok(None);
        }
        Ok(Some(self.need_expr(depth)?))
    }

    // After the word that begins a statement that holds no statement.
    #[inline(always)]
    pub(crate) fn simple(&mut self, kind: Simple, depth: usize) -> Result<u32, Refusal>
        requires { Spare self.old 4 }
        ensures { Reads (stmt_words same) (simple_rule depth kind) 0 4 self.old self.new result }
    {
        // Kept: the word that was read decides here, and only here, which rule goes on; a closure for it would be made and called in this place.
        match kind {
            Simple::Reinit => self.reinit(depth),
            Simple::Exit => self.exit(),
            Simple::Return => Ok(self.push(Node::One(StmtTag::Return as u32))),
            Simple::Check => self.stated(StmtTag::Check as u32, depth),
            Simple::Assume => self.stated(StmtTag::Assume as u32, depth),
            Simple::Reach => self.stated(StmtTag::Reach as u32, depth),
            Simple::Assert => self.stated(StmtTag::Assert as u32, depth),
            Simple::Probe => self.stated(StmtTag::Probe as u32, depth),
        }
    }

    // After `reinit`.
    fn reinit(&mut self, depth: usize) -> Result<u32, Refusal>
        requires { Spare self.old 4 }
        ensures { Reads (stmt_words same) reinit_stmt 1 4 self.old self.new result }
    {
        let names = self.need_items(Kind::Names, depth)?;
        Ok(self.push(Node::Headed(StmtTag::Reinit as u32, names)))
    }

    // After `exit`: the label, if a name stands here that no mark follows.
    fn exit(&mut self) -> Result<u32, Refusal>
        requires { Spare self.old 1 }
        ensures { Reads (stmt_words same) exit_stmt 0 1 self.old self.new result }
    {
        let start = self.at;
        if let Some(name) = self.name()? {
            if !self.mark()? {
                let label = self.push(Node::Three(MORE, name.start, name.len));
                return Ok(self.push(Node::Headed(StmtTag::Exit as u32, label)));
            }
            self.at = start;
        }
        Ok(self.push(Node::Two(StmtTag::Exit as u32, NO_MORE)))
    }

    // After the name and `:=`.
    pub(crate) fn assign_stmt(&mut self, name: Name, depth: usize) -> Result<u32, Refusal>
        requires { Spare self.old 2 }
        ensures { Reads (stmt_words same) (λ text. after_assign text (turns text) (opened depth text) (span name)) 1 2 self.old self.new result }
    {
        let head = self.push(Node::Three(StmtTag::Assign as u32, name.start, name.len));
        let e = self.need_expr(depth)?;
        Ok(self.pair(head, e))
    }

    // After the name and `(`.
    pub(crate) fn call_stmt(&mut self, name: Name, depth: usize) -> Result<u32, Refusal>
        requires { Spare self.old 4 }
        ensures { Reads (stmt_words same) (λ text. after_call text (turns text) (opened depth text) (span name)) 1 3 self.old self.new result }
    {
        let head = self.push(Node::Three(StmtTag::Call as u32, name.start, name.len));
        let arguments = self.list(Kind::Arguments, b")", depth)?;
        Ok(self.pair(head, arguments))
    }

    // "stmt" of `stmtGallery` where no level is left: refusal 3 if a statement's first token stands here, or a name with its mark.
    pub(crate) fn too_deep_stmt(&mut self) -> Result<(), Refusal>
        ensures { Stops (stmt_rule 0) self.old self.new result }
    {
        let start = self.at;
        let Some(len) = self.word_ahead() else {
            return too_deep_if(start, self.sym(b"{"));
        };
        let Lead::Name = self.lead_at(len) else {
            return Err(too_deep(start));
        };
        self.pass_word(len)?;
        too_deep_if(start, self.mark())?;
        self.at = start;
        Ok(())
    }
}
