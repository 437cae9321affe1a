// The reading rules of statements, in one cycle of calls. `depth` is how many levels may still be opened.

#![tactic(auto, using(crate::proofs::Laws::failing, crate::proofs::StatementPlaces::sparing, crate::proofs::StatementEquations::equations), unfolding(grammar::specs::Steps::after, grammar::specs::Statements::parse_variable_declaration, grammar::specs::Statements::after_forall, grammar::specs::Statements::after_label, grammar::specs::Statements::parse_a_expr))]

pub(crate) mod alt;

ghost use Rattle.std.specs.Prelude.{◌≤◌, length};
ghost use Rattle.tree.specs.Words.{stmt_words, a_expr_words};
ghost use Rattle.grammar.specs.Statements.{rep, parse_stmt, parse_variable_declaration, after_forall, after_label};
ghost use Rattle.parsing.specs.Contract.{Spare, Reads, Reads_if, same, needed, span};
ghost use Rattle.parsing.specs.Code.{turns, opened, opening};
ghost use Rattle.parsing.specs.Statements.{Spares, Spares_if, aexpr_rule, block_rule, stmt_rule, after_loop, named_stmt, scope_stmt, repeated, repeated_words, repetition_words, repeated_rule};

use crate::arena::{EMPTY, Node};
use crate::lead::Lead;
use crate::parser::{Name, Parser, too_deep, too_deep_if, unusable};
use lexing::refusal::Refusal;
use tree::word::{AExprTag, StmtTag};

// What is repeated.
#[derive(Clone, Copy, PartialEq, Eq, Debug)]
pub(crate) enum Repeated {
    Stmts,
    Nested,
    Branches,
    Cases,
    Requires,
    Ensures,
    Invariants,
    Whens,
}

impl<'a> Parser<'a> {
    #[cycle(statement)]
    fn repeated(&mut self, kind: Repeated, depth: usize) -> Result<Option<u32>, Refusal>
        ensures { Spares_if (repeated_words kind) (repeated_rule kind depth) self.old self.new result }
    {
        // Kept: `kind` is what the contract of `many` names its rule by, as in `item` (expr/seq.rt).
        match kind {
            Repeated::Stmts => self.stmt(depth),
            Repeated::Nested => self.nested(depth),
            Repeated::Branches => self.or_branch(depth),
            Repeated::Cases => self.case(depth),
            Repeated::Requires => self.aexpr(b"requires", depth),
            Repeated::Ensures => self.aexpr(b"ensures", depth),
            Repeated::Invariants => self.aexpr(b"invariant", depth),
            Repeated::Whens => self.when(depth),
        }
    }

    // `.Rep()`.
    #[cycle(statement)]
    pub(crate) fn many(&mut self, kind: Repeated, depth: usize) -> Result<u32, Refusal>
        requires { Spare self.old 1 }
        ensures { Reads (repetition_words kind) (λ text. rep (repeated kind) (turns text) (repeated_rule kind depth text)) 0 1 self.old self.new result }
    {
        let mut list = EMPTY;
        while let Some(item) = self.repeated(kind, depth)? {
            list = self.push(Node::Item(list, item));
        }
        Ok(self.close(list))
    }

    // "block" of `stmtGallery`.
    #[cycle(statement)]
    #[inline(always)]
    pub(crate) fn block(&mut self, depth: usize) -> Result<Option<u32>, Refusal>
        ensures { Spares_if (stmt_words same) (block_rule depth) self.old self.new result }
    {
        if depth == 0 {
            too_deep_if(self.at, self.sym(b"{"))?;
            return Ok(None);
        }
        if !self.sym(b"{")? {
            return Ok(None);
        }
        let stmts = self.many(Repeated::Stmts, depth - 1)?;
        self.need_sym(b"}")?;
        Ok(Some(self.push(Node::Headed(StmtTag::Block as u32, stmts))))
    }

    // Kept: as `need_x` of src/parser.rt, and a member of the cycle, where a closure has to write its clauses.
    #[cycle(statement)]
    fn need_block(&mut self, depth: usize) -> Result<u32, Refusal>
        ensures { Spares (stmt_words same) (needed (block_rule depth)) self.old self.new result }
    {
        let at = self.at;
        self.block(depth)?.ok_or(unusable(at))
    }

    // After `loop`, where a level is left: its invariants and its body.
    #[cycle(statement)]
    fn looped(&mut self, depth: usize) -> Result<u32, Refusal>
        requires { (1 ≤ depth) × Spare self.old 3 }
        ensures { Reads (stmt_words same) (after_loop depth) 1 3 self.old self.new result }
    {
        let invariants = self.many(Repeated::Invariants, depth - 1)?;
        let head = self.push(Node::Headed(StmtTag::Loop as u32, invariants));
        let body = self.need_block(depth - 1)?;
        Ok(self.pair(head, body))
    }

    // "stmt" of `stmtGallery`.
    #[cycle(statement)]
    fn nested(&mut self, depth: usize) -> Result<Option<u32>, Refusal>
        ensures { Spares_if (stmt_words same) (stmt_rule depth) self.old self.new result }
    {
        if depth == 0 {
            self.too_deep_stmt()?;
            return Ok(None);
        }
        self.stmt(depth - 1)
    }

    // `parseStmt`: by the word that stands here. Where a name stands that no mark follows, nothing is kept.
    #[cycle(statement)]
    fn stmt(&mut self, depth: usize) -> Result<Option<u32>, Refusal>
        ensures { Spares_if (stmt_words same) (opening parse_stmt depth) self.old self.new result }
    {
        let start = self.at;
        let Some(len) = self.word_ahead() else {
            return self.block(depth);
        };
        let lead = self.lead_at(len);
        if lead.opens_none(depth) {
            return Err(too_deep(start));
        }
        let name = self.pass_word(len)?;
        // Kept: the word that was read decides here, and only here, which rule goes on; a closure for it would be made and called in this place.
        match lead {
            Lead::Var => Ok(Some(self.var_decl(true, depth)?)),
            Lead::Val => Ok(Some(self.var_decl(false, depth)?)),
            Lead::Simple(kind) => Ok(Some(self.simple(kind, depth)?)),
            Lead::Forall => Ok(Some(self.forall_stmt(depth)?)),
            Lead::Choose => Ok(Some(self.choose(depth)?)),
            Lead::If => Ok(Some(self.if_cont(depth)?)),
            Lead::Loop => Ok(Some(self.looped(depth)?)),
            Lead::Name => {
                let Some(stmt) = self.named_stmt(name, depth)? else {
                    self.at = start;
                    return Ok(None);
                };
                Ok(Some(stmt))
            }
        }
    }

    // After a name: its mark, and what follows it.
    #[cycle(statement)]
    #[inline(always)]
    fn named_stmt(&mut self, name: Name, depth: usize) -> Result<Option<u32>, Refusal>
        requires { Spare self.old 2 }
        ensures { Reads_if (stmt_words same) (named_stmt depth (span name)) 1 1 self.old self.new result }
    {
        if self.sym(b":=")? {
            return Ok(Some(self.assign_stmt(name, depth)?));
        }
        if self.sym(b":")? {
            return Ok(Some(self.labeled_stmt(name, depth)?));
        }
        if self.sym(b"(")? {
            return Ok(Some(self.call_stmt(name, depth)?));
        }
        Ok(None)
    }

    // After the name and `:`.
    #[cycle(statement)]
    fn labeled_stmt(&mut self, name: Name, depth: usize) -> Result<u32, Refusal>
        requires { Spare self.old 2 }
        ensures { Reads (stmt_words same) (λ text. after_label text (turns text) (opened depth text) (span name)) 1 2 self.old self.new result }
    {
        let head = self.push(Node::Three(StmtTag::LabeledStmt as u32, name.start, name.len));
        let body = self.need_scope(depth)?;
        Ok(self.pair(head, body))
    }

    // A block or a loop, which must follow.
    #[cycle(statement)]
    fn need_scope(&mut self, depth: usize) -> Result<u32, Refusal>
        ensures { Spares (stmt_words same) (needed (scope_stmt depth)) self.old self.new result }
    {
        let start = self.at;
        if let Some(block) = self.block(depth)? {
            return Ok(block);
        }
        if depth == 0 {
            too_deep_if(start, self.keyword(b"loop"))?;
            return Err(unusable(start));
        }
        if self.keyword(b"loop")? {
            return self.looped(depth);
        }
        Err(unusable(start))
    }

    // After `var` or `val`.
    // Kept: `mutable` is VarDecl's own field, a Bool in RawAst, and chooses no step.
    #[cycle(statement)]
    fn var_decl(&mut self, mutable: bool, depth: usize) -> Result<u32, Refusal>
        requires { Spare self.old 6 }
        ensures { Reads (stmt_words same) (λ text. parse_variable_declaration text (turns text) (opened depth text) mutable) 1 6 self.old self.new result }
    {
        let name = self.need_name()?;
        let head = self.push(Node::Three(StmtTag::VarDecl as u32, name.start, name.len));
        let typ = self.optional_type()?;
        let marked = self.push(Node::Headed(u32::from(mutable), typ));
        let inv = self.auto_invariant(depth)?;
        let init = self.init(depth)?;
        let declaration = self.four(head, marked, inv, init);
        let stmts = self.many(Repeated::Nested, depth)?;
        let body = self.push(Node::Headed(StmtTag::Block as u32, stmts));
        Ok(self.pair(declaration, body))
    }

    // After `forall`.
    #[cycle(statement)]
    fn forall_stmt(&mut self, depth: usize) -> Result<u32, Refusal>
        requires { Spare self.old 2 }
        ensures { Reads (stmt_words same) (opening after_forall depth) 1 2 self.old self.new result }
    {
        let binding = self.need_id_type()?;
        let head = self.push(Node::Headed(StmtTag::AForall as u32, binding));
        let body = self.need_block(depth)?;
        Ok(self.pair(head, body))
    }

    // `parseAExpr`.
    #[cycle(statement)]
    fn aexpr(&mut self, bytes: &[u8], depth: usize) -> Result<Option<u32>, Refusal>
        requires { 7 ≤ length bytes.now }
        ensures { Spares_if (a_expr_words same) (aexpr_rule bytes.now depth) self.old self.new result }
    {
        if !self.keyword(bytes)? {
            return Ok(None);
        }
        if let Some(block) = self.block(depth)? {
            return Ok(Some(self.push(Node::Headed(AExprTag::AAssertion as u32, block))));
        }
        Ok(Some(self.stated(AExprTag::AExpr as u32, depth)?))
    }
}
