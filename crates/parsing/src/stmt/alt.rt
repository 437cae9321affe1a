// Statements with alternatives: `choose` and `if`.

#![tactic(auto, using(crate::proofs::Laws::failing, crate::proofs::StatementPlaces::sparing, crate::proofs::StatementEquations::equations), unfolding(grammar::specs::Statements::after_choose, grammar::specs::Statements::parse_or, grammar::specs::Statements::parse_else, grammar::specs::Statements::parse_case))]

ghost use Rattle.tree.specs.Words.{stmt_words};
ghost use Rattle.grammar.specs.Statements.{after_choose, parse_or, parse_if_cont, parse_else, parse_case};
ghost use Rattle.parsing.specs.Contract.{Spare, Reads, same, needed};
ghost use Rattle.parsing.specs.Code.{opening};
ghost use Rattle.parsing.specs.Statements.{Spares_if, cont_rule, case_words, cond_stmt};

use crate::arena::Node;
use crate::parser::{Parser, unusable};
use crate::stmt::Repeated;
use lexing::refusal::Refusal;
use tree::word::{MORE, NO_MORE, StmtTag};

impl<'a> Parser<'a> {
    // After `choose`.
    #[cycle(statement)]
    pub(crate) fn choose(&mut self, depth: usize) -> Result<u32, Refusal>
        requires { Spare self.old 3 }
        ensures { Reads (stmt_words same) (opening after_choose depth) 1 3 self.old self.new result }
    {
        let first = self.need_block(depth)?;
        // Kept: a method for these lines would take a kind and a tag, and need a rule of its own beside those of choose and if.
        let head = self.push(Node::Headed(MORE, first));
        let branches = self.many(Repeated::Branches, depth)?;
        let all = self.pair(head, branches);
        Ok(self.push(Node::Headed(StmtTag::Choose as u32, all)))
    }

    // `or` and a block.
    #[cycle(statement)]
    pub(crate) fn or_branch(&mut self, depth: usize) -> Result<Option<u32>, Refusal>
        ensures { Spares_if (stmt_words same) (opening parse_or depth) self.old self.new result }
    {
        if !self.keyword(b"or")? {
            return Ok(None);
        }
        Ok(Some(self.need_block(depth)?))
    }

    // "if-cont" of `stmtGallery`, which must follow.
    #[cycle(statement)]
    fn else_if(&mut self, depth: usize) -> Result<u32, Refusal>
        requires { Spare self.old 3 }
        ensures { Reads (stmt_words same) (needed (cont_rule depth)) 1 3 self.old self.new result }
    {
        if depth == 0 {
            let at = self.at;
            self.too_deep_expr()?;
            return Err(unusable(at));
        }
        self.if_cont(depth - 1)
    }

    // `parseIfCont`, which must follow.
    #[cycle(statement)]
    pub(crate) fn if_cont(&mut self, depth: usize) -> Result<u32, Refusal>
        requires { Spare self.old 3 }
        ensures { Reads (stmt_words same) (needed (opening parse_if_cont depth)) 1 3 self.old self.new result }
    {
        let Some(first) = self.case(depth)? else {
            return self.if_cond(depth);
        };
        // Kept: as `choose`.
        let head = self.push(Node::Headed(MORE, first));
        let cases = self.many(Repeated::Cases, depth)?;
        let all = self.pair(head, cases);
        Ok(self.push(Node::Headed(StmtTag::IfCase as u32, all)))
    }

    // A condition, which must follow, a block and what follows them.
    #[cycle(statement)]
    fn if_cond(&mut self, depth: usize) -> Result<u32, Refusal>
        requires { Spare self.old 3 }
        ensures { Reads (stmt_words same) (needed (cond_stmt depth)) 1 3 self.old self.new result }
    {
        let guard = self.need_expr(depth)?;
        let head = self.push(Node::Headed(StmtTag::If as u32, guard));
        let thn = self.need_block(depth)?;
        let els = self.if_else(depth)?;
        let both = self.pair(thn, els);
        Ok(self.pair(head, both))
    }

    // `else` and what it leads, or the empty block.
    #[cycle(statement)]
    fn if_else(&mut self, depth: usize) -> Result<u32, Refusal>
        requires { Spare self.old 1 }
        ensures { Reads (stmt_words same) (opening parse_else depth) 0 1 self.old self.new result }
    {
        if !self.keyword(b"else")? {
            return Ok(self.push(Node::Two(StmtTag::Block as u32, NO_MORE)));
        }
        if self.keyword(b"if")? {
            return self.else_if(depth);
        }
        self.need_block(depth)
    }

    // `parseCase`.
    #[cycle(statement)]
    pub(crate) fn case(&mut self, depth: usize) -> Result<Option<u32>, Refusal>
        ensures { Spares_if case_words (opening parse_case depth) self.old self.new result }
    {
        if !self.keyword(b"case")? {
            return Ok(None);
        }
        let guard = self.need_expr(depth)?;
        let body = self.need_block(depth)?;
        Ok(Some(self.pair(guard, body)))
    }
}
