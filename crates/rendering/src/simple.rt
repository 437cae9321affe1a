// The statements that have no statements in them, after their first word. Each method prints the words from the next one on, and passes them.
ghost use Rattle.rendering.specs.Parts.{Prints};
ghost use Rattle.rendering.specs.StmtParts.{an_assign, a_reinit, a_call_stmt, an_exit, an_expression_stmt};

use crate::printer::Printer;

impl Printer<'_> {
    pub(crate) fn assign(&mut self)
        ensures { Prints an_assign self.old self.new }
    {
        self.name_then(b" := ");
        self.inline();
        self.put(b"\n");
    }

    pub(crate) fn reinit(&mut self)
        ensures { Prints a_reinit self.old self.new }
    {
        self.put(b"reinit ");
        self.separated(b"", b", ", |p| p.name());
        self.put(b"\n");
    }

    pub(crate) fn call_stmt(&mut self)
        ensures { Prints a_call_stmt self.old self.new }
    {
        self.name_then(b"(");
        self.separated(b"", b", ", |p| p.argument());
        self.put(b")\n");
    }

    pub(crate) fn exit(&mut self)
        ensures { Prints an_exit self.old self.new }
    {
        self.put(b"exit");
        self.optional(b" ", |p| p.name());
        self.put(b"\n");
    }

    // `ExpressionStmt`: Check, Assume, Reach, Assert, Probe.
    #[inline]
    pub(crate) fn expression_stmt(&mut self, keyword: &[u8])
        ensures { Prints (an_expression_stmt keyword.now) self.old self.new }
    {
        self.put(keyword);
        self.inline();
        self.put(b"\n");
    }
}
