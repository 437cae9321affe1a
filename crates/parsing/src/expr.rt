// The reading rules of expressions, in one cycle of calls: the levels of operators, and the operands. `depth` is how many levels may still be
// opened.

#![tactic(auto, using(crate::proofs::Laws::failing), unfolding(grammar::specs::Steps::after, grammar::specs::Rules::parse_imp_exp_expr, grammar::specs::Rules::imp_exp_tail, grammar::specs::Rules::parse_logical_expr, grammar::specs::Rules::logical_tail, grammar::specs::Rules::parse_juct_expr, grammar::specs::Rules::parse_term_expr, grammar::specs::Rules::once_tail, grammar::specs::Rules::parse_unary_expr, grammar::specs::Rules::after_paren, grammar::specs::Rules::after_name, grammar::specs::Rules::after_call, grammar::specs::Rules::after_label, grammar::specs::Rules::after_colon, grammar::specs::Rules::after_if, grammar::specs::Rules::after_val))]

pub(crate) mod seq;

use crate::arena::{EMPTY, Node};
use crate::expr::seq::Kind;
use crate::parser::{Name, Parser, unusable};
use crate::sign::Level;
use lexing::refusal::Refusal;
use tree::word::{ExprTag, Operator};

// The levels. Those that hand on an answer of another are inlined, since it would be copied once more.
impl<'a> Parser<'a> {
    ghost use Rattle.grammar.specs.Reading.{tree_words};
    ghost use Rattle.grammar.specs.Rules.{parse_imp_exp_expr, parse_logical_expr, parse_juct_expr, parse_unary_expr};
    ghost use Rattle.parsing.specs.Contract.{Reads, Reads_if, Standing, needed};
    ghost use Rattle.parsing.specs.Code.{inner, turning, tighter_of, left_chain};
    ghost use Rattle.parsing.specs.Expressions.{Sees, left_rest};
    ghost use Rattle.parsing.specs.Signs.{class_of, level_rule};
    ghost use Rattle.tree.specs.Ast.{Expr, Span};

    // `parseExpr`, with `depth` levels left.
    #[cycle(expression)]
    #[inline(always)]
    pub(crate) fn expr(&mut self, depth: usize) -> Result<Option<u32>, Refusal>
        ensures { Reads_if tree_words (inner depth) 1 0 self.old self.new result }
    {
        if depth == 0 {
            return self.too_deep_expr();
        }
        self.chain(Level::Equivalence, depth - 1)
    }

    // Kept: as `need_x` of src/parser.rt, and a member of the cycle, where a closure has to write its clauses.
    #[cycle(expression)]
    #[inline]
    pub(crate) fn need_expr(&mut self, depth: usize) -> Result<u32, Refusal>
        ensures { Reads tree_words (needed (inner depth)) 1 0 self.old self.new result }
    {
        let at = self.at;
        self.expr(depth)?.ok_or(unusable(at))
    }

    // `parseEquivExpr`, `parseTermExpr` and `parseFactorExpr`: a level whose operators lean left.
    #[cycle(expression)]
    fn chain(&mut self, level: Level, depth: usize) -> Result<Option<u32>, Refusal>
        ensures { Reads_if tree_words (left_chain (class_of level) depth) 1 0 self.old self.new result }
    {
        let Some(first) = self.tight(level, depth)? else {
            return Ok(None);
        };
        Ok(Some(self.left(first, level, depth)?))
    }

    // `parseImpExpExpr`: all `==>`, or all `<==`.
    #[cycle(expression)]
    fn imp(&mut self, depth: usize) -> Result<Option<u32>, Refusal>
        ensures { Reads_if tree_words (turning parse_imp_exp_expr depth) 1 0 self.old self.new result }
    {
        let Some(first) = self.logic(depth)? else {
            return Ok(None);
        };
        if self.sees(Level::Implication)? {
            let mut e = first;
            let mut link = EMPTY;
            while self.operator(Level::Implication)?.is_some() {
                link = self.push(Node::Binary(Operator::LogicalImp, e, link));
                e = self.need_tight(Level::Implication, depth)?;
            }
            return Ok(Some(self.fold(link, e)));
        }
        Ok(Some(self.left(first, Level::Explication, depth)?))
    }

    // `parseLogicalExpr`: all `&&`, or all `||`.
    #[cycle(expression)]
    fn logic(&mut self, depth: usize) -> Result<Option<u32>, Refusal>
        ensures { Reads_if tree_words (turning parse_logical_expr depth) 1 0 self.old self.new result }
    {
        let Some(first) = self.juct(depth)? else {
            return Ok(None);
        };
        if self.sees(Level::Conjunction)? {
            return Ok(Some(self.left(first, Level::Conjunction, depth)?));
        }
        Ok(Some(self.left(first, Level::Disjunction, depth)?))
    }

    // `parseJuctExpr`: one comparison at most.
    #[cycle(expression)]
    fn juct(&mut self, depth: usize) -> Result<Option<u32>, Refusal>
        ensures { Reads_if tree_words (turning parse_juct_expr depth) 1 0 self.old self.new result }
    {
        let Some(first) = self.chain(Level::Sum, depth)? else {
            return Ok(None);
        };
        let Some(sign) = self.operator(Level::Comparison)? else {
            return Ok(Some(first));
        };
        let second = self.need_tight(Level::Comparison, depth)?;
        Ok(Some(self.combine(sign, first, second)))
    }

    // The operands of a level.
    // Kept: a level has its operands as it has its signs; as a closure they would stand beside it in each call of `chain` and of `left`.
    #[cycle(expression)]
    #[inline(always)]
    fn tight(&mut self, level: Level, depth: usize) -> Result<Option<u32>, Refusal>
        ensures { Reads_if tree_words (tighter_of (class_of level) depth) 1 0 self.old self.new result }
    {
        match level {
            Level::Product => self.unary(depth),
            Level::Sum => self.chain(Level::Product, depth),
            Level::Comparison => self.chain(Level::Sum, depth),
            Level::Conjunction => self.juct(depth),
            Level::Disjunction => self.juct(depth),
            Level::Implication => self.logic(depth),
            Level::Explication => self.logic(depth),
            Level::Equivalence => self.imp(depth),
        }
    }

    // Kept: as `need_x` of src/parser.rt, and a member of the cycle, where a closure has to write its clauses.
    #[cycle(expression)]
    #[inline]
    fn need_tight(&mut self, level: Level, depth: usize) -> Result<u32, Refusal>
        ensures { Reads tree_words (needed (tighter_of (class_of level) depth)) 1 0 self.old self.new result }
    {
        let at = self.at;
        self.tight(level, depth)?.ok_or(unusable(at))
    }

    // After the operand `first`: the rest of a chain that leans left.
    #[cycle(expression)]
    #[inline(always)]
    fn left(&mut self, first: u32, level: Level, depth: usize) -> Result<u32, Refusal>
        ensures { (tree : Expr Span) → Standing self.old first (tree_words tree) → Reads tree_words (left_rest (class_of level) depth tree) 0 0 self.old self.new result }
    {
        let mut e = first;
        while let Some(sign) = self.operator(level)? {
            let operand = self.need_tight(level, depth)?;
            e = self.combine(sign, e, operand);
        }
        Ok(e)
    }

    // Whether an operator of the level stands here.
    fn sees(&mut self, level: Level) -> Result<bool, Refusal>
        ensures { Sees (level_rule level) self.old self.new result }
    {
        let at = self.at;
        let found = self.operator(level)?.is_some();
        self.at = at;
        Ok(found)
    }

    // `parseUnaryExpr`: operators before an operand.
    #[cycle(expression)]
    #[inline(always)]
    fn unary(&mut self, depth: usize) -> Result<Option<u32>, Refusal>
        ensures { Reads_if tree_words (turning parse_unary_expr depth) 1 0 self.old self.new result }
    {
        let mut link = EMPTY;
        while let Some(op) = self.unary_operator()? {
            link = self.push(Node::Unary(op, link));
        }
        if link == EMPTY {
            return self.primary(depth);
        }
        let at = self.at;
        let e = self.primary(depth)?.ok_or(unusable(at))?;
        Ok(Some(self.fold(link, e)))
    }
}

// The operands.
impl<'a> Parser<'a> {
    ghost use Rattle.std.specs.Prelude.{◌≤◌};
    ghost use Rattle.grammar.specs.Reading.{tree_words};
    ghost use Rattle.grammar.specs.Rules.{parse_primary_expr, after_if, after_val};
    ghost use Rattle.parsing.specs.Contract.{Spare, Reads, Reads_if, Spelt, span};
    ghost use Rattle.parsing.specs.Code.{inner, over, turning, paren_expr};
    ghost use Rattle.parsing.specs.Expressions.{name_rule};

    // `parsePrimaryExpr`.
    #[cycle(expression)]
    #[inline(always)]
    fn primary(&mut self, depth: usize) -> Result<Option<u32>, Refusal>
        ensures { Reads_if tree_words (turning parse_primary_expr depth) 1 0 self.old self.new result }
    {
        if let Some(len) = self.word_ahead() {
            return Ok(Some(self.worded(len, depth)?));
        }
        if let Some(literal) = self.literal()? {
            return Ok(Some(literal));
        }
        self.paren(depth)
    }

    // An expression in parentheses.
    #[cycle(expression)]
    fn paren(&mut self, depth: usize) -> Result<Option<u32>, Refusal>
        ensures { Reads_if tree_words (paren_expr (inner depth)) 1 0 self.old self.new result }
    {
        if self.sym(b"(")? {
            let e = self.need_expr(depth)?;
            self.need_sym(b")")?;
            return Ok(Some(e));
        }
        Ok(None)
    }

    // What begins with a word, which has `len` bytes.
    #[cycle(expression)]
    #[inline(never)]
    fn worded(&mut self, len: usize, depth: usize) -> Result<u32, Refusal>
        requires { Spelt self.old len }
        ensures { Reads tree_words (turning parse_primary_expr depth) 1 0 self.old self.new result }
    {
        if self.keyword_of(len, b"if")? {
            return self.cond(depth);
        }
        if self.keyword_of(len, b"val")? {
            return self.val(depth);
        }
        if self.keyword_of(len, b"forall")? {
            return self.quant(true, depth);
        }
        if self.keyword_of(len, b"exists")? {
            return self.quant(false, depth);
        }
        if self.keyword_of(len, b"lift")? {
            return self.lift(depth);
        }
        if let Some(constant) = self.constant(len)? {
            return Ok(constant);
        }
        let name = self.pass_word(len)?;
        self.named(name, depth)
    }

    // After the name `n`: a call, a label, or the name alone.
    #[cycle(expression)]
    #[inline(always)]
    fn named(&mut self, n: Name, depth: usize) -> Result<u32, Refusal>
        requires { Spare self.old 2 }
        ensures { Reads tree_words (name_rule (span n) depth) 0 2 self.old self.new result }
    {
        if self.sym(b"(")? {
            let head = self.push(Node::Three(ExprTag::FunctionCallExpr as u32, n.start, n.len));
            let arguments = self.list(Kind::Exprs, b")", depth)?;
            return Ok(self.pair(head, arguments));
        }
        if self.sym(b":")? {
            let head = self.push(Node::Three(ExprTag::LabeledExpr as u32, n.start, n.len));
            let e = self.need_expr(depth)?;
            return Ok(self.pair(head, e));
        }
        Ok(self.push(Node::Ident(n.start, n.len, false)))
    }

    // After `if`.
    #[cycle(expression)]
    fn cond(&mut self, depth: usize) -> Result<u32, Refusal>
        ensures { Reads tree_words (over after_if depth) 1 0 self.old self.new result }
    {
        let guard = self.need_expr(depth)?;
        let thn = self.need_expr(depth)?;
        self.need_keyword(b"else")?;
        let els = self.need_expr(depth)?;
        Ok(self.choice(guard, thn, els))
    }

    // After `val`.
    #[cycle(expression)]
    fn val(&mut self, depth: usize) -> Result<u32, Refusal>
        ensures { Reads tree_words (over after_val depth) 1 0 self.old self.new result }
    {
        let name = self.need_name()?;
        let head = self.push(Node::Three(ExprTag::LetExpr as u32, name.start, name.len));
        let typ = self.optional_type()?;
        self.need_sym(b":=")?;
        let rhs = self.need_expr(depth)?;
        let body = self.need_expr(depth)?;
        Ok(self.four(head, typ, rhs, body))
    }
}
