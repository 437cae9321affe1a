// Printer.dfy's `Statement`. Each method prints the words from the next one on, and passes them.
mod list;

ghost use Rattle.rendering.specs.Parts.{Prints};
ghost use Rattle.rendering.specs.StmtParts.{Tells, a_stmt, an_inner, a_block, an_onward, a_variable, variable_head, a_braces, a_forall, a_choose, an_if, an_if_case, a_loop, invariant_list, a_labelled, an_a_expr};

use crate::printer::Printer;
use layout::deeper;
use tree::word::{AExprTag, FALSE, NO_MORE, StmtTag};

impl Printer<'_> {
    // A statement without its initial indent. `followed`: it is followed by a `}`.
    // Kept: the flag is upstream's `followedByEndCurly`, and an enum of two names would be no plainer. The word decides at once which arm is taken.
    #[cycle(statement)]
    pub(crate) fn stmt(&mut self, indent: usize, followed: bool)
        ensures { Prints (a_stmt indent followed) self.old self.new }
    {
        match StmtTag::from_word(self.word()) {
            Some(StmtTag::VarDecl) => self.var_decl(indent, followed),
            Some(StmtTag::Assign) => self.assign(),
            Some(StmtTag::Reinit) => self.reinit(),
            Some(StmtTag::Block) => self.braces(indent),
            Some(StmtTag::Call) => self.call_stmt(),
            Some(StmtTag::Check) => self.expression_stmt(b"check "),
            Some(StmtTag::Assume) => self.expression_stmt(b"assume "),
            Some(StmtTag::Reach) => self.expression_stmt(b"reach "),
            Some(StmtTag::Assert) => self.expression_stmt(b"assert "),
            Some(StmtTag::AForall) => self.forall(indent),
            Some(StmtTag::Choose) => self.choose(indent),
            Some(StmtTag::If) => self.if_stmt(indent),
            Some(StmtTag::IfCase) => self.if_case(indent),
            Some(StmtTag::Loop) => self.loop_stmt(indent),
            Some(StmtTag::LabeledStmt) => self.labeled_stmt(indent),
            Some(StmtTag::Exit) => self.exit(),
            Some(StmtTag::Return) => self.put(b"return\n"),
            Some(StmtTag::Probe) => self.expression_stmt(b"probe "),
            None => {}
        }
    }

    // A declaration, in braces of its own where no `}` follows.
    // Kept: the flag is `stmt`'s, which passes it on, and is upstream's.
    #[cycle(statement)]
    fn var_decl(&mut self, indent: usize, followed: bool)
        ensures { Prints (a_variable indent followed) self.old self.new }
    {
        if followed {
            self.variable();
            self.inner(indent, true);
        } else {
            let own = deeper(indent, self.source.step);
            self.put(b"{\n");
            self.indent(own);
            self.variable();
            self.inner(own, true);
            self.indent(indent);
            self.put(b"}\n");
        }
    }

    // `VariableDeclaration`, before the body.
    fn variable(&mut self)
        ensures { Prints variable_head self.old self.new }
    {
        if self.ahead(2) == FALSE {
            self.put(b"val ");
        } else {
            self.put(b"var ");
        }
        self.name();
        self.word();
        self.optional(b": ", |p| p.name());
        self.optional(b" autoinv ", |p| p.inline());
        self.optional(b" := ", |p| p.inline());
        self.put(b"\n");
    }

    // `BlockAsStatementList`.
    // Kept: the flag is `stmt`'s, to which it is passed on, and is upstream's.
    #[cycle(statement)]
    fn inner(&mut self, indent: usize, followed: bool)
        ensures { Prints (an_inner indent followed) self.old self.new }
    {
        if self.ahead(0) == StmtTag::Block as u32 {
            self.word();
            self.list(indent);
        } else {
            self.indent(indent);
            self.stmt(indent, followed);
        }
    }

    // `StmtAsBlock`, without its suffix.
    #[cycle(statement)]
    pub(crate) fn block(&mut self, indent: usize)
        ensures { Prints (a_block indent) self.old self.new }
    {
        let inside = deeper(indent, self.source.step);
        self.put(b"{\n");
        self.inner(inside, false);
        self.indent(indent);
        self.put(b"}");
    }

    // Block.
    // Kept: beside `block` it differs in what is called and in a line end; a shared method would take both as arguments for two calls.
    #[cycle(statement)]
    fn braces(&mut self, indent: usize)
        ensures { Prints (a_braces indent) self.old self.new }
    {
        let inside = deeper(indent, self.source.step);
        self.put(b"{\n");
        self.list(inside);
        self.indent(indent);
        self.put(b"}\n");
    }

    #[cycle(statement)]
    fn forall(&mut self, indent: usize)
        ensures { Prints (a_forall indent) self.old self.new }
    {
        self.put(b"forall ");
        self.typed();
        self.put(b" ");
        self.block(indent);
        self.put(b"\n");
    }

    #[cycle(statement)]
    fn choose(&mut self, indent: usize)
        ensures { Prints (a_choose indent) self.old self.new }
    {
        self.put(b"choose ");
        if self.is_at_end() {
            self.word();
            self.put(b"{ }\n");
        } else {
            self.branches(indent);
        }
    }

    #[cycle(statement)]
    fn if_stmt(&mut self, indent: usize)
        ensures { Prints (an_if indent) self.old self.new }
    {
        self.put(b"if ");
        self.inline();
        self.put(b" ");
        self.block(indent);
        if self.is_empty_block() {
            self.word();
            self.word();
            self.put(b"\n");
        } else {
            self.put(b" else ");
            let stays = self.is_conditional();
            self.onward(stays, indent);
        }
    }

    // A statement after `else` or a label: on the line where it stays there, else as a block.
    // Kept: two methods in place of the flag would differ in a test alone.
    #[cycle(statement)]
    fn onward(&mut self, stays: bool, indent: usize)
        ensures { Prints (an_onward stays indent) self.old self.new }
    {
        if stays {
            self.stmt(indent, false);
        } else {
            self.block(indent);
            self.put(b"\n");
        }
    }

    #[cycle(statement)]
    fn if_case(&mut self, indent: usize)
        ensures { Prints (an_if_case indent) self.old self.new }
    {
        self.put(b"if ");
        if self.is_at_end() {
            self.word();
            self.indent(indent);
            self.put(b"case false {\n");
            self.indent(indent);
            self.put(b"}\n");
        } else {
            self.cases(indent);
        }
    }

    #[cycle(statement)]
    fn loop_stmt(&mut self, indent: usize)
        ensures { Prints (a_loop indent) self.old self.new }
    {
        self.put(b"loop");
        self.invariants(indent);
        self.block(indent);
        self.put(b"\n");
    }

    // A loop's invariants, on lines of their own.
    #[cycle(statement)]
    fn invariants(&mut self, indent: usize)
        ensures { Prints (invariant_list indent) self.old self.new }
    {
        if self.is_at_end() {
            self.word();
            self.put(b" ");
        } else {
            let inside = deeper(indent, self.source.step);
            self.put(b"\n");
            self.aexprs(b"invariant", inside);
            self.indent(indent);
        }
    }

    #[cycle(statement)]
    fn labeled_stmt(&mut self, indent: usize)
        ensures { Prints (a_labelled indent) self.old self.new }
    {
        self.name_then(b": ");
        let stays = self.is_loop();
        self.onward(stays, indent);
    }

    // An assertion of `PrintAExprs`, after its prefix.
    #[cycle(statement)]
    fn aexpr(&mut self, indent: usize)
        ensures { Prints (an_a_expr indent) self.old self.new }
    {
        match AExprTag::from_word(self.word()) {
            Some(AExprTag::AExpr) => {
                self.inline();
                self.put(b"\n");
            }
            Some(AExprTag::AAssertion) => self.stmt(indent, false),
            None => {}
        }
    }
}

// What a statement is, before it is printed.
impl Printer<'_> {
    fn is_empty_block(&self) -> bool
        ensures { Tells self.now (λ s. s.is_empty_block) result }
    {
        self.ahead(0) == StmtTag::Block as u32 && self.ahead(1) == NO_MORE
    }

    // `If? || IfCase?`
    fn is_conditional(&self) -> bool
        ensures { Tells self.now (λ s. s.is_if) result }
    {
        let tag = self.ahead(0);
        tag == StmtTag::If as u32 || tag == StmtTag::IfCase as u32
    }

    fn is_loop(&self) -> bool
        ensures { Tells self.now (λ s. s.is_loop) result }
    {
        self.ahead(0) == StmtTag::Loop as u32
    }
}
